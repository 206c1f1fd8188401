// The parameter block (PROTOCOL 4, 'Machine end'): where a machine of version 2.1 stores what a code 20 says in its memory.
#![tactic(auto)]

ghost use Rattle.std.specs.Prelude.{◌≡◌, ◌<◌, get_or};
ghost use Rattle.block.specs.Block.{place, roomy, padded, name_cell, cell, block};

use parameters::{Parameters, Value};

// How many bytes the block has.
pub const LENGTH: usize = 14;

// The least memory of version 2.1; the block begins as far below the top.
pub const LEAST: usize = 64;

// A memory of this size has room for the block, if the version has one.
pub fn roomy(version: u8, size: usize) -> bool
    ensures { result ≡ roomy version size }
{
    !version::older(version) || LEAST <= size
}

// Where the block begins in a memory of this size.
pub fn place(size: usize) -> usize
    ensures { result ≡ place size }
{
    if size < LEAST {
        return 0;
    }
    size - LEAST + size % 2
}

// Byte i of a value, `fill` beyond its end.
fn padded(fill: u8, value: Value, i: usize) -> u8
    requires { i < 16 }
    ensures { result ≡ padded fill value i }
{
    if usize::from(value.length) <= i {
        return fill;
    }
    value.bytes[i]
}

// Byte i of a name's part of the block, if it changes: padded with spaces; of an empty name the first two become 0.
fn name_cell(value: Value, i: usize) -> Option<u8>
    requires { i < 16 }
    ensures { result ≡ name_cell value i }
{
    if value.length != 0 {
        return Some(padded(32, value, i));
    }
    if i < 2 { Some(0) } else { None }
}

// What byte x of the block becomes, if it changes: the node number, the target name, the host name.
pub fn cell(parameters: Parameters, x: usize) -> Option<u8>
    ensures { result ≡ cell parameters x }
{
    if x < 2 {
        return Some(padded(0, parameters.target_address, x));
    }
    if x < 8 {
        return name_cell(parameters.target_name, x - 2);
    }
    if x < LENGTH {
        return name_cell(parameters.host_name, x - 8);
    }
    None
}

// A byte of memory, 0 beyond its end.
fn byte(memory: &[u8], at: usize) -> u8
    ensures { result ≡ get_or memory.now at 0 }
{
    memory.get(at).copied().unwrap_or(0)
}

// The block's bytes for a memory, which keep those that stay.
pub fn block(parameters: Parameters, memory: &[u8]) -> [u8; 14]
    ensures { result ≡ block parameters memory.now }
{
    let at = place(memory.len());
    let mut bytes = [0u8; 14];
    for (x, b) in bytes.iter_mut().enumerate() {
        *b = cell(parameters, x).unwrap_or(byte(memory, at + x));
    }
    bytes
}
