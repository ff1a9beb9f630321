ghost use Rattle.std.specs.Prelude.{◌≡◌, IfOk};

use crate::types::Memory;
use std::alloc::Global;
use std::marker::Model;

/// A text, which contracts see as the list of its bytes.
#[derive(Debug, Drop)]
pub struct Txt {
    bytes: Vec<u8>,
}

impl Model for Txt {
    ghost use Rattle.std.specs.Prelude.{List, ℕ};

    ghost Value = { List ℕ };

    ghost view = { λ t. t.bytes.items };
}

impl Txt {
    /// The text with these bytes.
    pub fn new(alloc: Global, bytes: &[u8]) -> Result<Txt, Memory>
        ensures { IfOk result (λ t. t ≡ bytes.now) }
    {
        let bytes = Vec::from_slice(alloc, bytes)?;
        Ok(Txt { bytes })
    }

    /// The text with a vector's bytes. It takes no memory.
    pub fn from_vec(bytes: Vec<u8>) -> Txt
        ensures { result ≡ bytes.items }
    {
        Txt { bytes }
    }

    /// A vector of the bytes. It takes no memory.
    pub fn into_vec(self) -> Vec<u8>
        ensures { result.items ≡ self }
    {
        let Txt { bytes } = self;
        bytes
    }

    pub fn bytes(&self) -> &[u8]
        ensures { result.now ≡ self.now }
    {
        self.bytes.as_slice()
    }

    /// An equal text.
    pub fn copy(&self) -> Result<Txt, Memory>
        ensures { IfOk result (λ t. t ≡ self.now) }
    {
        let bytes = Vec::from_slice(*self.bytes.allocator(), self.bytes.as_slice())?;
        Ok(Txt { bytes })
    }
}

#[cfg(test)]
mod tests {
    use super::*;
    use std::test::Fail;

    #[test]
    fn copies(rt: HostRuntime) -> Result<(), Fail> {
        let text = Txt::new(rt.alloc(), b"abc")?;
        assert_eq!(rt; text.copy()?.bytes(), text.bytes());
        Ok(())
    }
}
