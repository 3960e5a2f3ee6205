//! What a listing calls a command that is passed over.

ghost use Rattle.std.specs.Prelude.{◌≡◌, ◌≤◌, ◌+◌, ◌++◌, length, codes};
ghost use Rattle.escpos_passed.specs.Names.{byte_name, name_of, named};

use crate::table::Prefix;
use arrayvec::ArrayVec;

/// A name: at most three parts of at most three letters, and spaces between them.
pub type Name = ArrayVec<u8, 11>;

impl Prefix {
    /// The Reference's name of the commands that begin so, as `GS ( A`.
    pub fn name(self) -> Name
        ensures { result.items ≡ name_of self }
    {
        let mut name = ArrayVec::new();
        match self {
            Prefix::One(first) => put(&mut name, first),
            Prefix::Two(first, second) | Prefix::With(first, second, _) => {
                put(&mut name, first);
                name.push(b' ');
                put(&mut name, second);
            }
            Prefix::Three(first, second, third) => {
                put(&mut name, first);
                name.push(b' ');
                put(&mut name, second);
                name.push(b' ');
                put(&mut name, third);
            }
        }
        name
    }

    /// How many bytes the name stands for.
    pub fn named(self) -> usize
        ensures { result ≡ named self }
    {
        match self {
            Prefix::One(_) => 1,
            Prefix::Two(..) | Prefix::With(..) => 2,
            Prefix::Three(..) => 3,
        }
    }
}

// Appends the name of a byte.
fn put(name: &mut Name, byte: u8)
    requires { length name.old.items + 3 ≤ 11 }
    ensures kept { name.new.items ≡ name.old.items ++ byte_name byte }
    ensures short { length (byte_name byte) ≤ 3 }
{
    match byte {
        0x04 => name.try_extend_from_slice(b"EOT").unwrap(),
        0x05 => name.try_extend_from_slice(b"ENQ").unwrap(),
        0x09 => name.try_extend_from_slice(b"HT").unwrap(),
        0x0C => name.try_extend_from_slice(b"FF").unwrap(),
        0x10 => name.try_extend_from_slice(b"DLE").unwrap(),
        0x14 => name.try_extend_from_slice(b"DC4").unwrap(),
        0x18 => name.try_extend_from_slice(b"CAN").unwrap(),
        0x1B => name.try_extend_from_slice(b"ESC").unwrap(),
        0x1C => name.try_extend_from_slice(b"FS").unwrap(),
        0x1D => name.try_extend_from_slice(b"GS").unwrap(),
        _ => name.push(byte),
    }
}
