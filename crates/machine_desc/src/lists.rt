//! Small lists, which contracts see as lists.
ghost use Rattle.std.specs.Prelude.{◌≡◌};
ghost use Rattle.std.specs.Str.{IsUtf8};

use std::fmt;
use std::marker::Model;

/// The domains of some components, in order of the components' numbers.
#[derive(Drop)]
pub struct Places {
    list: Vec<u16>,
}

impl Model for Places {
    ghost use Rattle.std.specs.Prelude.{List, ℕ};

    ghost Value = { List ℕ };

    ghost view = { λ p. p.list.items };
}

impl Places {
    /// The places of a list, which it takes over.
    pub fn of(list: Vec<u16>) -> Self
        ensures { result ≡ list.items }
    {
        Places { list }
    }

    /// The domain of each, in order of their numbers.
    pub fn as_slice(&self) -> &[u16]
        ensures { result.now ≡ self.now }
    {
        &self.list
    }

    /// Gives the list back.
    pub fn into_list(self) -> Vec<u16>
        ensures { result.items ≡ self }
    {
        self.list
    }
}

/// The name of a key, in UTF-8, as it stands in a refusal. It is printed as it is.
#[derive(Debug, Drop)]
pub struct KeyName {
    text: String,
}

impl Model for KeyName {
    ghost use Rattle.std.specs.Prelude.{List, ℕ, string_bytes};

    ghost Value = { List ℕ };

    ghost view = { λ k. string_bytes k.text };
}

impl KeyName {
    /// The name of a text, which it takes over.
    pub fn of(list: Vec<u8>) -> Self
        requires { IsUtf8 list.items }
        ensures { result ≡ list.items }
    {
        match String::from_utf8(list) {
            Ok(text) => KeyName { text },
            Err(_) => unreachable!(),
        }
    }

    /// The bytes of the name.
    pub fn as_slice(&self) -> &[u8]
        ensures { result.now ≡ self.now }
    {
        self.text.as_bytes()
    }

    /// Gives the bytes of the name.
    pub fn into_list(self) -> Vec<u8>
        ensures { result.items ≡ self }
    {
        self.text.into_bytes()
    }
}

impl fmt::Display for KeyName {
    ghost use Rattle.std.specs.Prelude.{Some};

    ghost output = { λ name. Some name };

    fn fmt<W: fmt::Write>(&self, f: &mut fmt::Formatter<W>) -> fmt::Result {
        f.write_str(&self.text)
    }
}
