//! Laws of what is written.

ghost use Rattle.std.specs.Prelude.{◌≡◌, ◌++◌, List, ℕ, map, flat_map, All, Contains};
ghost use Rattle.st_num.specs.declared.token.Token.{Token};
ghost use Rattle.st_scan.specs.Tokens.{Tokens};
ghost use Rattle.st_el.specs.declared.expression.Exp.{Exp};
ghost use Rattle.st_el.specs.declared.definition.Def.{Def};
ghost use Rattle.st_el.specs.Plain.{plain_exp};
ghost use Rattle.st_parse_builder.specs.Definitions.{Parse};
ghost use Rattle.st_parse.specs.ExpressionSource.{ParseExps};
ghost use Rattle.st_parse_law.specs.Written.{Piece, AreApart, bytes_of, shape, shapes};
ghost use Rattle.st_parse_law.specs.ReadBack.{AreOfFiles, ReadBack};
ghost use Rattle.st_parse_law.specs.DefExps.{exps_of};
ghost use Rattle.st_parse_law.specs.SourceTexts.{AreProper, exp_texts, HasTexts, DefHasTexts};

/// Tokens that are written apart are the tokens of their bytes.
pub fn written_tokens()
    ensures { (number : ℕ) (pieces : List Piece) → AreApart pieces
        → (tokens : List Token) × Tokens number (bytes_of pieces) tokens
        × (map shape tokens ≡ shapes pieces) }
{}

/// The tokens of a file are of files, and so are those of several one behind another.
pub fn tokens_of_files()
    ensures one { (number : ℕ) (file : List ℕ) (tokens : List Token) → Tokens number file tokens
        → AreOfFiles tokens }
    ensures more { (first later : List Token) → AreOfFiles first → AreOfFiles later
        → AreOfFiles (first ++ later) }
{}

/// What is printed of an expression that was read is read as this expression again, places,
/// parentheses and `$( )` aside: its text is scanned, and whatever tokens it is scanned to mean it.
/// It is one of a list that the tokens of files mean, or stands in definitions that they mean.
pub fn printed_is_read_back()
    ensures in_list { (names : List (List ℕ)) (again : ℕ) (tokens : List Token) (es : List Exp)
        (e : Exp) → AreOfFiles tokens → ParseExps names tokens es → Contains es e
        → ReadBack names again e }
    ensures in_definitions { (names : List (List ℕ)) (again : ℕ) (tokens : List Token)
        (defs : List Def) (e : Exp) → AreOfFiles tokens → Parse names tokens defs
        → Contains (flat_map exps_of defs) e → ReadBack names again e }
{}

/// The texts and names in the tokens of a file are as values want them. Of tokens with such texts
/// and names, what they mean has such alone. A plain expression has those of the expression.
pub fn texts_are_kept()
    ensures of_files { (number : ℕ) (file : List ℕ) (tokens : List Token)
        → Tokens number file tokens → AreProper tokens }
    ensures of_expressions { (names : List (List ℕ)) (tokens : List Token) (es : List Exp)
        → AreProper tokens → ParseExps names tokens es → All HasTexts es }
    ensures of_definitions { (names : List (List ℕ)) (tokens : List Token) (defs : List Def)
        → AreProper tokens → Parse names tokens defs → All DefHasTexts defs }
    ensures of_plain { (e : Exp) → exp_texts (plain_exp e) ≡ exp_texts e }
{}
