// The bytes of a record.
ghost use Rattle.std.specs.Prelude.{◌≡◌, ◌≤◌, length};
ghost use Rattle.ihex_loader.specs.Line.{kind_of, offset_of, data_of};

/// A record whose check byte, type and count are right: the bytes of all its digit pairs, the count first and the
/// check byte last.
#[derive(Drop)]
pub struct RecordBytes {
    bytes: Vec<u8>,
    ghost whole: { 5 ≤ length bytes.items },
}

impl RecordBytes {
    /// The record of these bytes: five or more, whose check byte, type and count the caller has looked at.
    pub fn new(bytes: Vec<u8>) -> Self
        requires { 5 ≤ length bytes.items }
        ensures { result.bytes.items ≡ bytes.items }
    {
        RecordBytes { bytes }
    }

    /// Its type, 0 to 5.
    pub fn kind(&self) -> u8
        ensures { result ≡ kind_of self.now.bytes.items }
    {
        self.bytes[3]
    }

    /// Its offset, high byte first.
    pub fn offset(&self) -> u16
        ensures { result ≡ offset_of self.now.bytes.items }
    {
        256 * u16::from(self.bytes[1]) + u16::from(self.bytes[2])
    }

    /// Its data bytes.
    pub fn data(&self) -> &[u8]
        ensures { result.now ≡ data_of self.now.bytes.items }
    {
        &self.bytes[4..self.bytes.len() - 1]
    }
}
