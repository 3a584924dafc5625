// A wish as 16 bytes.
ghost use Rattle.std.specs.Prelude.{◌≡◌, length};
ghost use Rattle.interface.specs.WishBytes.{wish_bytes, wish_from, wish_in};

use crate::record_bytes::{are_same, frequency_from, khz_bytes};
use controller::{Control, Entry, Function};
use planner::Wish;

// The 16 bytes of a wish.
fn wish_bytes_of(wish: Wish) -> [u8; 16]
    ensures { result ≡ wish_bytes wish }
{
    let khz = khz_bytes(wish.frequency);
    [
        wish.function.n as u8,
        wish.function.f as u8,
        wish.control.d as u8,
        wish.control.c as u8,
        wish.control.b as u8,
        wish.entry.id as u8,
        wish.entry.s as u8,
        wish.shift,
        wish.cursor,
        khz[0],
        khz[1],
        0,
        0,
        0,
        0,
        0,
    ]
}

// The wish that 16 bytes say if they say one: a bit above 1 is read as 0.
fn wish_from(bytes: &[u8]) -> Wish
    requires { length bytes.now ≡ 16 }
    ensures { result ≡ wish_from bytes.now }
{
    Wish {
        function: Function {
            n: bytes[0] == 1,
            f: bytes[1] == 1,
        },
        control: Control {
            d: bytes[2] == 1,
            c: bytes[3] == 1,
            b: bytes[4] == 1,
        },
        entry: Entry {
            id: bytes[5] == 1,
            s: bytes[6] == 1,
        },
        shift: bytes[7],
        cursor: bytes[8],
        frequency: frequency_from(bytes[9], bytes[10]),
    }
}

// The wish that bytes say, if they say one.
#[tactic(auto, unfolding(crate::specs::WishBytes::wish_in, crate::specs::WishBytes::wish_as))]
pub fn read_wish(bytes: &[u8]) -> Option<Wish>
    ensures { result ≡ wish_in bytes.now }
{
    let Ok(bytes) = <&[u8; 16]>::try_from(bytes) else {
        return None;
    };
    let wish = wish_from(bytes);
    if are_same(bytes, &wish_bytes_of(wish)) {
        Some(wish)
    } else {
        None
    }
}
