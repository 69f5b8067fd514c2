//! A word of a command, as a command keeps it.

ghost use Rattle.std.specs.Prelude.{◌≡◌, IfOk};

use st_num::NoMemory;
use std::alloc::Global;
use std::marker::Model;

/// A word of a command. Contracts see it as its bytes.
#[derive(Drop)]
pub struct CommandWord {
    text: String,
}

impl Model for CommandWord {
    ghost use Rattle.std.specs.Prelude.{List, ℕ, string_bytes};
    ghost use Rattle.std.specs.Coded.{coded_list, coded_ℕ};

    ghost Value = { List ℕ };

    ghost coded = { coded_list coded_ℕ };

    ghost view = { λ word. string_bytes word.text };
}

impl CommandWord {
    pub fn new(alloc: Global, text: &str) -> Result<CommandWord, NoMemory>
        ensures { IfOk result (λ word. word ≡ text.now) }
    {
        let text = String::from_str(alloc, text)?;
        Ok(CommandWord { text })
    }

    pub fn as_str(&self) -> &str
        ensures { result.now ≡ self.now }
    {
        self.text.as_str()
    }
}
