//! Masks of 256 bits, as four words.
ghost use Rattle.std.specs.Prelude.{◌≡◌, ℕ, ◌<◌, ◌&&◌, length};
ghost use Rattle.lanes.specs.Masks.{has_bit, has_some_bit, bit_count};

use std::simd::prelude::*;

/// The bits that both masks have.
#[inline(always)]
pub fn mask_and(a: [u64; 4], b: [u64; 4]) -> [u64; 4]
    ensures { (place : ℕ) → has_bit result place ≡ (has_bit a place && has_bit b place) }
{
    both(u64x4::from_array(a), u64x4::from_array(b)).to_array()
}

#[inline(always)]
fn both(a: u64x4, b: u64x4) -> u64x4
    ensures { (place : ℕ) → has_bit result place ≡ (has_bit a place && has_bit b place) }
{
    a & b
}

/// Whether a mask has a bit.
#[inline(always)]
pub fn mask_any(a: [u64; 4]) -> bool
    ensures { result ≡ has_some_bit a }
{
    is_some(u64x4::from_array(a))
}

#[inline(always)]
fn is_some(a: u64x4) -> bool
    ensures { result ≡ has_some_bit a }
{
    a.reduce_or() != 0
}

/// How many bits a mask has.
#[inline(always)]
pub fn mask_count(a: [u64; 4]) -> u32
    ensures { result ≡ bit_count a }
{
    a[0].count_ones() + a[1].count_ones() + a[2].count_ones() + a[3].count_ones()
}
