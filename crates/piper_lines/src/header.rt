//! The bytes that report how long a frame is.
ghost use Rattle.std.specs.Prelude.{◌≡◌, ◌↔◌, ◌<◌, ◌≤◌, IsTrue, length};
ghost use Rattle.std.specs.Int.{w16, w32, w64};
ghost use Rattle.piper_lines.specs.Header.{header_size, order_of, length_bytes, encoded_length, ordered_bytes, ordered_number, CanEncode};

use crate::length_bytes::LengthBytes;

/// Which byte of a number comes first.
#[derive(Clone, Copy, Debug, PartialEq, Eq)]
pub enum ByteOrder {
    /// The most significant.
    BigEndian,
    /// The least significant.
    LittleEndian,
}

/// How many bytes at the front of a frame give the length of its body, and in which order.
#[derive(Clone, Copy, Debug, PartialEq, Eq)]
pub enum FrameHeader {
    /// One byte: bodies of up to 255 bytes.
    OneByte,
    /// Two bytes: bodies of up to 65,535 bytes.
    TwoBytes(ByteOrder),
    /// Four bytes: bodies of up to 4,294,967,295 bytes.
    FourBytes(ByteOrder),
    /// Eight bytes: bodies of any length.
    EightBytes(ByteOrder),
}

/// Four bytes, the most significant first.
impl Default for FrameHeader {
    ghost use Rattle.piper_lines.specs.Header.{usual_header};

    ghost is_default = { λ header. header ≡ usual_header };

    fn default() -> FrameHeader {
        FrameHeader::FourBytes(ByteOrder::BigEndian)
    }
}

impl FrameHeader {
    ghost use Rattle.piper_lines.specs.Shown.{shown_of};

    // How many bytes it has.
    pub(crate) fn size(self) -> usize
        ensures size { result ≡ header_size self }
        ensures some { 0 < result }
        ensures most { result ≤ 8 }
    {
        match self {
            FrameHeader::OneByte => 1,
            FrameHeader::TwoBytes(_) => 2,
            FrameHeader::FourBytes(_) => 4,
            FrameHeader::EightBytes(_) => 8,
        }
    }

    // The order of its bytes; one alone is in either.
    pub(crate) fn order(self) -> ByteOrder
        ensures { result ≡ order_of self }
    {
        match self {
            FrameHeader::OneByte => ByteOrder::BigEndian,
            FrameHeader::TwoBytes(order)
            | FrameHeader::FourBytes(order)
            | FrameHeader::EightBytes(order) => order,
        }
    }

    /// Whether it can report this length.
    pub fn can_encode(self, size: usize) -> bool
        ensures { IsTrue result ↔ CanEncode self size }
    {
        match self {
            FrameHeader::OneByte => size < 1 << 8,
            FrameHeader::TwoBytes(_) => size < 1 << 16,
            FrameHeader::FourBytes(_) => size < 1 << 32,
            FrameHeader::EightBytes(_) => true,
        }
    }

    /// The bytes that report this length.
    ///
    /// Requires: the header can report it, which `can_encode` tests.
    pub fn encode(self, size: usize) -> LengthBytes
        requires { CanEncode self size }
        ensures { shown_of result ≡ length_bytes self size }
    {
        match self.order() {
            ByteOrder::BigEndian => LengthBytes {
                bytes: (size as u64).to_be_bytes(),
                first: 8 - self.size(),
                end: 8,
            },
            ByteOrder::LittleEndian => LengthBytes {
                bytes: (size as u64).to_le_bytes(),
                first: 0,
                end: self.size(),
            },
        }
    }

    // The length that these bytes give.
    pub(crate) fn told(self, b: &[u8]) -> usize
        requires { length b.now ≡ header_size self }
        ensures told { result ≡ encoded_length self b.now }
        ensures spelled { length_bytes self result ≡ b.now }
    {
        match self {
            FrameHeader::OneByte => b[0] as usize,
            FrameHeader::TwoBytes(order) => number_of_two(order, [b[0], b[1]]),
            FrameHeader::FourBytes(order) => number_of_four(order, [b[0], b[1], b[2], b[3]]),
            FrameHeader::EightBytes(order) => {
                number_of_eight(order, [b[0], b[1], b[2], b[3], b[4], b[5], b[6], b[7]])
            }
        }
    }
}

// The number that two bytes make in this order.
fn number_of_two(order: ByteOrder, bytes: [u8; 2]) -> usize
    ensures told { result ≡ ordered_number order w16 bytes }
    ensures spelled { ordered_bytes order w16 result ≡ bytes }
{
    match order {
        ByteOrder::BigEndian => u16::from_be_bytes(bytes) as usize,
        ByteOrder::LittleEndian => u16::from_le_bytes(bytes) as usize,
    }
}

// The number that four bytes make in this order.
fn number_of_four(order: ByteOrder, bytes: [u8; 4]) -> usize
    ensures told { result ≡ ordered_number order w32 bytes }
    ensures spelled { ordered_bytes order w32 result ≡ bytes }
{
    match order {
        ByteOrder::BigEndian => u32::from_be_bytes(bytes) as usize,
        ByteOrder::LittleEndian => u32::from_le_bytes(bytes) as usize,
    }
}

// The number that eight bytes make in this order.
fn number_of_eight(order: ByteOrder, bytes: [u8; 8]) -> usize
    ensures told { result ≡ ordered_number order w64 bytes }
    ensures spelled { ordered_bytes order w64 result ≡ bytes }
{
    match order {
        ByteOrder::BigEndian => u64::from_be_bytes(bytes) as usize,
        ByteOrder::LittleEndian => u64::from_le_bytes(bytes) as usize,
    }
}
