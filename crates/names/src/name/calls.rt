ghost use Rattle.std.specs.Prelude.{◌≡◌, ◌≤◌, length, take};
ghost use Rattle.names.specs.Names.{most_bytes, spelling};

use super::{MOST_BYTES, Name};

impl Name {
    // The name that some bytes spell; of a longer text the first 12 bytes.
    pub fn new(bytes: &[u8]) -> Name
        ensures { spelling result ≡ take most_bytes bytes.now }
    {
        spelt(&bytes[..bytes.len().min(MOST_BYTES)])
    }

    // Its bytes.
    pub fn as_bytes(&self) -> &[u8]
        ensures { result.now ≡ spelling self.now }
    {
        &self.bytes[..self.len]
    }
}

// The name of few bytes.
fn spelt(bytes: &[u8]) -> Name
    requires { length bytes.now ≤ most_bytes }
    ensures { spelling result ≡ bytes.now }
{
    let mut own = [0; MOST_BYTES];
    let len = bytes.len();
    own[..len].copy_from_slice(bytes);
    Name { bytes: own, len }
}
