//! Headers, and lists of them.

ghost use Rattle.std.specs.Cmp.Lexicographic.{pointwise, lists_per, lists_equiv};
ghost use Rattle.gs_rtsp_text.specs.contracts.header.HeaderPartialEq.TheImpl as partial;
ghost use Rattle.gs_rtsp_text.specs.contracts.header.HeaderPartialEq.TheImpl.Laws as partial_laws;
ghost use Rattle.gs_rtsp_text.specs.contracts.header.HeaderEq.TheImpl.Laws as whole_laws;

use crate::lines::are_same_name;
use gs_bytes::Text;
use std::marker::Model;

/// A header (RFC 2326, section 4.2): a name, which is compared without regard to the case of ASCII
/// letters, and a value, without spaces at its ends.
#[derive(Debug, PartialEq, Eq, Drop)]
pub struct Header {
    pub name: Text,
    pub value: Text,
}

/// The headers of a message in their order, which a contract sees as the list of them.
#[derive(Debug, Drop)]
pub struct Headers {
    items: Vec<Header>,
}

impl Model for Headers {
    ghost use Rattle.std.specs.Prelude.{List};
    ghost use Rattle.gs_rtsp_text.specs.declared.header.Header.{Header};

    ghost Value = { List Header };

    ghost view = { λ headers. headers.items.items };
}

impl Headers {
    ghost use Rattle.std.specs.Prelude.{◌≡◌};
    ghost use Rattle.std.specs.Option.{option_copied};
    ghost use Rattle.gs_rtsp_text.specs.Lines.{value_by};

    /// The headers of a vector. Takes no memory.
    pub fn from_vec(items: Vec<Header>) -> Headers
        ensures { result ≡ items.items }
    {
        Headers { items }
    }

    /// The headers as a vector. Takes no memory.
    pub fn into_vec(self) -> Vec<Header>
        ensures { result.items ≡ self }
    {
        self.items
    }

    /// The value of the first header of a name, without regard to the case of ASCII letters.
    pub fn value_of(&self, name: &[u8]) -> Option<&[u8]>
        ensures { option_copied result ≡ value_by name.now self.now }
    {
        for header in &self.items {
            if are_same_name(header.name.as_bytes(), name) {
                return Some(header.value.as_bytes());
            }
        }
        None
    }

    /// The headers.
    pub fn as_slice(&self) -> &[Header]
        ensures { result.now ≡ self.now }
    {
        self.items.as_slice()
    }
}

impl PartialEq for Headers {
    ghost eq = { pointwise partial.ghosts.eq };

    ghost laws = { lists_per partial_laws.laws-law };

    fn eq(&self, other: &Headers) -> bool {
        self.as_slice() == other.as_slice()
    }
}

impl Eq for Headers {
    ghost laws = { lists_equiv whole_laws.laws-law };
}
