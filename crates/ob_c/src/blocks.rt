//! Blocks of bytes that several writes share.

ghost use Rattle.std.specs.Prelude.{◌≡◌};
ghost use Rattle.ob_c.specs.Calls.{IsLetGo, IsMadeOf, IsPieceOf, IsSharedOf};

use crate::block::Block;
use crate::numbers::{ALREADY_OPEN, DONE, NO_MEMORY, NOT_OPEN};
use crate::pieces::Piece;
use bytes::Bytes;
use std::alloc::Global;

/// Copies bytes into a block, which writes to any number of connections then share.
///
/// The status is 14 if the block holds bytes already, and 12 if it is out of memory.
#[unsafe(no_mangle)]
pub extern "C" fn limekeel_block_of_bytes(alloc: Global, block: &mut Block, bytes: &[u8]) -> u32
    ensures { IsMadeOf block.old.value bytes.now result block.new.value }
{
    if block.is_open() {
        return ALREADY_OPEN;
    }
    let Ok(copy) = Bytes::copy_from_slice(alloc, bytes) else {
        return NO_MEMORY;
    };
    match Box::new(alloc, copy) {
        Ok(copy) => {
            block.keep(copy);
            DONE
        }
        Err(_) => NO_MEMORY,
    }
}

/// Makes a second block of the bytes of one, which both share: no byte is copied. It is for another thread, since a block is
/// used by one call at a time.
///
/// The status is 13 if the block holds no bytes, then 14 if the second one does; 12 if it is out of memory or the bytes have
/// more owners than can be counted.
#[unsafe(no_mangle)]
pub extern "C" fn limekeel_block_share(alloc: Global, block: &mut Block, second: &mut Block) -> u32
    ensures shares { IsSharedOf block.old.value second.old.value result second.new.value }
    ensures block { block.new.value ≡ block.old.value }
{
    if !block.is_open() {
        return NOT_OPEN;
    }
    if second.is_open() {
        return ALREADY_OPEN;
    }
    let bytes: &Bytes = block.reach();
    let Ok(shared) = bytes.clone() else {
        return NO_MEMORY;
    };
    match Box::new(alloc, shared) {
        Ok(shared) => {
            second.keep(shared);
            DONE
        }
        Err(_) => NO_MEMORY,
    }
}

/// Says where the bytes of a block lie. They stay there as long as the block or a message shares them.
///
/// The status is 13 if the block holds no bytes, and the piece is as it was then.
#[unsafe(no_mangle)]
pub extern "C" fn limekeel_block_piece(block: &mut Block, piece: &mut Piece) -> u32
    ensures piece { IsPieceOf block.old.value piece.old result piece.new }
    ensures block { block.new.value ≡ block.old.value }
{
    if !block.is_open() {
        return NOT_OPEN;
    }
    let bytes: &Bytes = block.reach();
    *piece = Piece::of(bytes.as_slice());
    DONE
}

/// Lets a block go. Its memory is freed with the last write that shares it.
///
/// The status is 13 if it held no bytes.
#[unsafe(no_mangle)]
pub extern "C" fn limekeel_block_free(alloc: Global, block: &mut Block) -> u32
    ensures { IsLetGo block.old.value result block.new.value }
{
    match block.bytes(alloc) {
        None => NOT_OPEN,
        Some(_) => DONE,
    }
}
