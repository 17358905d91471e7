//! One line of data, written token by token.

ghost use Rattle.std.specs.Prelude.{◌≡◌, ◌++◌, [], ◌∷◌, OnOk, decimal};
ghost use Rattle.json.specs.Print.{print};
ghost use Rattle.json.specs.Token.{begin_array, begin_object, boolean, end_array, end_object, key, number, string};
ghost use Rattle.data_tokens.specs.Line.{with_tokens};

use host_memory::Global;
use json::Writer;
use std::alloc::AllocError;
use std::marker::Model;

/// A line of data.
#[derive(Drop)]
pub struct DataLine {
    writer: Writer<Global>,
}

impl Model for DataLine {
    ghost use Rattle.data_tokens.specs.Line.{LineState};

    ghost Value = { LineState };

    ghost view = { λ line. record { before = line.writer.before; tokens = line.writer.tokens } };
}

impl DataLine {
    /// An empty line, in the room of what this holds.
    pub fn within(room: Vec<u8, Global>) -> DataLine
        ensures { result ≡ record { before = []; tokens = [] } }
    {
        let mut room = room;
        room.clear();
        DataLine {
            writer: Writer::new(room),
        }
    }

    /// The line's JSON, after the text before it.
    pub fn finish(self) -> Vec<u8, Global>
        ensures { result.items ≡ self.before ++ print self.tokens }
    {
        self.writer.into_inner()
    }

    /// Opens an object.
    pub fn open(&mut self) -> Result<(), AllocError>
        ensures { OnOk result (self.new ≡ with_tokens self.old (begin_object ∷ [])) }
    {
        self.writer.begin_object()
    }

    /// Closes an object.
    pub fn close(&mut self) -> Result<(), AllocError>
        ensures { OnOk result (self.new ≡ with_tokens self.old (end_object ∷ [])) }
    {
        self.writer.end_object()
    }

    /// Opens the list of this name.
    pub fn open_list(&mut self, name: &str) -> Result<(), AllocError>
        ensures { OnOk result (self.new ≡ with_tokens self.old (key name.now ∷ begin_array ∷ [])) }
    {
        self.writer.key(name)?;
        self.writer.begin_array()
    }

    /// Opens the object of this name.
    pub fn open_object(&mut self, name: &str) -> Result<(), AllocError>
        ensures { OnOk result (self.new ≡ with_tokens self.old (key name.now ∷ begin_object ∷ [])) }
    {
        self.writer.key(name)?;
        self.open()
    }

    /// Closes a list.
    pub fn close_list(&mut self) -> Result<(), AllocError>
        ensures { OnOk result (self.new ≡ with_tokens self.old (end_array ∷ [])) }
    {
        self.writer.end_array()
    }

    /// A number.
    pub fn number(&mut self, n: u64) -> Result<(), AllocError>
        ensures { OnOk result (self.new ≡ with_tokens self.old (number (decimal n) ∷ [])) }
    {
        self.writer.u64(n)
    }

    /// A member with a text.
    pub fn text(&mut self, name: &str, text: &str) -> Result<(), AllocError>
        ensures { OnOk result (self.new ≡ with_tokens self.old (key name.now ∷ string text.now ∷ [])) }
    {
        self.writer.key(name)?;
        self.writer.string(text)
    }

    /// A member with a number.
    pub fn count(&mut self, name: &str, n: u64) -> Result<(), AllocError>
        ensures { OnOk result (self.new ≡ with_tokens self.old (key name.now ∷ number (decimal n) ∷ [])) }
    {
        self.writer.key(name)?;
        self.number(n)
    }

    /// A member that is yes or no.
    pub fn flag(&mut self, name: &str, flag: bool) -> Result<(), AllocError>
        ensures { OnOk result (self.new ≡ with_tokens self.old (key name.now ∷ boolean flag ∷ [])) }
    {
        self.writer.key(name)?;
        self.writer.boolean(flag)
    }
}
