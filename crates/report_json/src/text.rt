//! JSON as text, token by token. Commas and colons come by themselves.
ghost use Rattle.std.specs.Prelude.{◌≡◌, ◌∷◌, [], ◌++◌, IfOk, OnOk};
ghost use Rattle.json.specs.Print.{print};
ghost use Rattle.serde_json.specs.Data.{boolean};
ghost use Rattle.json.specs.Token.{begin_array, end_array, begin_object, end_object, key, string};
ghost use Rattle.report_json.specs.ReportJson.{whole, integer, hex_text};
ghost use Rattle.report_json.specs.Tokens.{tokens_of};

use json::Writer;
use std::alloc::{AllocError, Global};
use std::marker::Model;

/// JSON that is written. Contracts see its tokens.
#[derive(Drop)]
pub struct Text {
    alloc: Global,
    writer: Writer,
}

impl Model for Text {
    ghost use Rattle.std.specs.Prelude.{List, ◌≡◌, []};
    ghost use Rattle.json.specs.Token.{Token};

    ghost Value = { List Token };

    ghost view = { λ text. text.writer.tokens };

    ghost invariant = { λ text. text.writer.before ≡ [] };
}

impl Text {
    /// Nothing, which takes no memory yet.
    pub fn new(alloc: Global) -> Text
        ensures { result ≡ [] }
    {
        Text {
            alloc,
            writer: Writer::new(Vec::new(alloc)),
        }
    }

    /// The bytes of what was written.
    pub fn into_bytes(self) -> Vec<u8>
        ensures { result.items ≡ print self }
    {
        self.writer.into_inner()
    }

    /// Begins an array.
    pub fn open_array(&mut self) -> Result<(), AllocError>
        ensures { OnOk result (self.new ≡ self.old ++ begin_array ∷ []) }
    {
        self.writer.begin_array()
    }

    /// Ends an array.
    pub fn close_array(&mut self) -> Result<(), AllocError>
        ensures { OnOk result (self.new ≡ self.old ++ end_array ∷ []) }
    {
        self.writer.end_array()
    }

    /// Begins an object.
    pub fn open_object(&mut self) -> Result<(), AllocError>
        ensures { OnOk result (self.new ≡ self.old ++ begin_object ∷ []) }
    {
        self.writer.begin_object()
    }

    /// Ends an object.
    pub fn close_object(&mut self) -> Result<(), AllocError>
        ensures { OnOk result (self.new ≡ self.old ++ end_object ∷ []) }
    {
        self.writer.end_object()
    }

    /// The key of a member.
    pub fn add_key(&mut self, name: &str) -> Result<(), AllocError>
        ensures { OnOk result (self.new ≡ self.old ++ key name.now ∷ []) }
    {
        self.writer.key(name)
    }

    /// A text.
    pub fn add_text(&mut self, text: &str) -> Result<(), AllocError>
        ensures { OnOk result (self.new ≡ self.old ++ string text.now ∷ []) }
    {
        self.writer.string(text)
    }

    /// A number that isn't below 0.
    pub fn add_whole(&mut self, number: u64) -> Result<(), AllocError>
        ensures { OnOk result (self.new ≡ self.old ++ tokens_of (whole number)) }
    {
        self.writer.u64(number)
    }

    /// A number that may be below 0.
    #[tactic(auto, using(crate::proofs::TokenLemmas::integer_tokens))]
    pub fn add_integer(&mut self, number: i64) -> Result<(), AllocError>
        ensures { OnOk result (self.new ≡ self.old ++ tokens_of (integer number)) }
    {
        self.writer.i64(number)
    }

    /// A truth.
    pub fn add_truth(&mut self, holds: bool) -> Result<(), AllocError>
        ensures { OnOk result (self.new ≡ self.old ++ tokens_of (boolean holds)) }
    {
        self.writer.boolean(holds)
    }

    /// A member that is a text.
    pub fn string_member(&mut self, name: &str, text: &str) -> Result<(), AllocError>
        ensures { OnOk result (self.new ≡ self.old ++ key name.now ∷ string text.now ∷ []) }
    {
        self.add_key(name)?;
        self.add_text(text)
    }

    /// A member that is a number, which isn't below 0.
    pub fn whole_member(&mut self, name: &str, number: u64) -> Result<(), AllocError>
        ensures { OnOk result (self.new ≡ self.old ++ key name.now ∷ tokens_of (whole number)) }
    {
        self.add_key(name)?;
        self.add_whole(number)
    }

    /// A member that is a number, which may be below 0.
    pub fn integer_member(&mut self, name: &str, number: i64) -> Result<(), AllocError>
        ensures { OnOk result (self.new ≡ self.old ++ key name.now ∷ tokens_of (integer number)) }
    {
        self.add_key(name)?;
        self.add_integer(number)
    }

    /// Bytes as lower-case hexadecimal text.
    pub fn add_hex(&mut self, bytes: &[u8]) -> Result<(), AllocError>
        ensures { OnOk result (self.new ≡ self.old ++ tokens_of (hex_text bytes.now)) }
    {
        let hex = hex::encode(self.alloc, bytes)?;
        self.writer.string(hex.as_str())
    }
}
