// The bytes that the 144 cells hold at first, and those that a wish has for them.
use std::array;

// What the cell at this place holds before the first run: another byte at every place.
pub fn first_byte(place: u8) -> u8 {
    place.wrapping_mul(7).wrapping_add(13)
}

// What a wish has for the cell at this place. 31 * place + 4 and 7 * place + 13 differ by an odd number, so it is never
// the first byte, and a cell that was not written shows.
pub fn wished_byte(place: u8) -> u8 {
    place.wrapping_mul(31).wrapping_add(4)
}

// The bytes of all cells.
pub fn cells_by<F: Fn(u8) -> u8>(byte_at: F) -> [u8; 144]
    requires { F.IsAlwaysCallable byte_at }
{
    array::from_fn(|place| byte_at(place as u8))
}
