// Lists of numbers in another width: a question's are read in 32 bits.
// Each function fills the front of a room, and hands that part out: all numbers, where there is room.
use crate::args::{low8, low16};

// Each for the most numbers that a list may have.
pub(crate) fn bytes_room() -> [u8; 4096] {
    [0u8; 4096]
}

pub(crate) fn halves_room() -> [u16; 4096] {
    [0u16; 4096]
}

pub(crate) fn numbers_room() -> [u32; 4096] {
    [0u32; 4096]
}

pub(crate) fn longs_room() -> [u64; 4096] {
    [0u64; 4096]
}

pub(crate) fn to8<'a>(list: &[u32], room: &'a mut [u8]) -> &'a mut [u8] {
    for (to, from) in room.iter_mut().zip(list) {
        *to = low8(*from as usize);
    }
    let count = list.len().min(room.len());
    &mut room[..count]
}

pub(crate) fn to16<'a>(list: &[u32], room: &'a mut [u16]) -> &'a mut [u16] {
    for (to, from) in room.iter_mut().zip(list) {
        *to = low16(*from as usize);
    }
    let count = list.len().min(room.len());
    &mut room[..count]
}

// The same in their own width.
pub(crate) fn copied<'a, T: Copy>(list: &[T], room: &'a mut [T]) -> &'a mut [T] {
    let count = list.len().min(room.len());
    let front = &mut room[..count];
    front.copy_from_slice(&list[..count]);
    front
}
