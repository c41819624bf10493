// The message schedules of four blocks, side by side: row t of the table is word t of each, a lane for each block.
ghost use Rattle.std.specs.Prelude.{◌≡◌, ℕ, ◌+◌, ◌-◌, ◌*◌, ◌<◌, ◌≤◌, length, slice_index};
ghost use Rattle.std.specs.Simd.Lanes.{chunk, put_chunk};
ghost use Rattle.sha2.specs.Sha256.{add32, small_sigma0, small_sigma1, word_at};
ghost use Rattle.road_sha.specs.Words.{IsReady, block_at, next_at};

use crate::constants::ROUND;
use std::simd::u32x4;

#[inline(always)]
fn add(a: u32x4, b: u32x4) -> u32x4
    ensures { (j : ℕ) → j < 4 → slice_index result j ≡ add32 (slice_index a j) (slice_index b j) }
{
    a + b
}

#[inline(always)]
fn small_sigma0(x: u32x4) -> u32x4
    ensures { (j : ℕ) → j < 4 → slice_index result j ≡ small_sigma0 (slice_index x j) }
{
    ((x >> 7) | (x << 25)) ^ ((x >> 18) | (x << 14)) ^ (x >> 3)
}

#[inline(always)]
fn small_sigma1(x: u32x4) -> u32x4
    ensures { (j : ℕ) → j < 4 → slice_index result j ≡ small_sigma1 (slice_index x j) }
{
    ((x >> 17) | (x << 15)) ^ ((x >> 19) | (x << 13)) ^ (x >> 10)
}

#[inline(always)]
fn row(words: &[u32; 256], t: usize) -> u32x4
    requires { t < 64 }
    ensures { result ≡ chunk (4 * t) 4 words.now }
{
    u32x4::from_slice(&words[4 * t..])
}

#[inline(always)]
fn put_row(words: &mut [u32; 256], t: usize, row: u32x4)
    requires { t < 64 }
    ensures { words.new ≡ put_chunk (4 * t) words.old row }
{
    row.copy_to_slice(&mut words[4 * t..4 * t + 4]);
}

// The word whose bytes begin at place `at`, the highest first.
#[inline(always)]
fn word(blocks: &[u8; 256], at: usize) -> u32
    requires { at + 4 ≤ 256 }
    ensures { result ≡ word_at blocks.now at }
{
    u32::from_be_bytes([blocks[at], blocks[at + 1], blocks[at + 2], blocks[at + 3]])
}

// Row t of the blocks' own words.
#[inline(always)]
fn first_row(blocks: &[u8; 256], t: usize) -> u32x4
    requires { t < 16 }
    ensures { (j : ℕ) → j < 4 → slice_index result j ≡ word_at (block_at blocks.now j) (4 * t) }
{
    u32x4::from_array([
        word(blocks, 4 * t),
        word(blocks, 4 * t + 64),
        word(blocks, 4 * t + 128),
        word(blocks, 4 * t + 192),
    ])
}

// Row t from the rows before it.
#[inline(always)]
fn next_row(words: &[u32; 256], t: usize) -> u32x4
    requires low { 16 ≤ t }
    requires high { t < 64 }
    ensures { (j : ℕ) → j < 4 → slice_index result j ≡ next_at words.now t j }
{
    let near = add(small_sigma1(row(words, t - 2)), row(words, t - 7));
    add(
        add(near, small_sigma0(row(words, t - 15))),
        row(words, t - 16),
    )
}

// The words of four blocks, each with its round's constant added.
pub(crate) fn fill(words: &mut [u32; 256], blocks: &[u8; 256])
    ensures { (j : ℕ) → j < 4 → IsReady words.new j (block_at blocks.now j) }
{
    'first: for t in 0..16 {
        let row = first_row(blocks, t);
        put_row(words, t, row);
    }
    'next: for t in 16..64 {
        let row = next_row(words, t);
        put_row(words, t, row);
    }
    'constants: for t in 0..64 {
        let row = add(row(words, t), u32x4::splat(ROUND[t]));
        put_row(words, t, row);
    }
}
