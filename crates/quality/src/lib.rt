// How far a picture is from another, by the sum of the squared errors of its channel values: the mean of them, and the peak signal-to-noise
// ratio. Both are whole numbers, since the language proves nothing of floats.
#![tactic(auto)]

ghost use Rattle.std.specs.Prelude.{◌≡◌, ◌+◌, ◌*◌, ◌^◌, ◌<◌, ◌≤◌};
ghost use Rattle.quality.specs.Mean.{mean_of};
ghost use Rattle.quality.specs.Psnr.{log_bit, scaled_square, log_in, psnr_of};

// The mean squared error of a channel value in thousandths, rounded to the nearest, a half up, and 0 for no values. The remainder is scaled
// apart, so that no product wraps where the mean is at most 2^54.
#[tactic(auto, using(crate::proofs::Rounding::mean_split, crate::proofs::Rounding::mean_some, crate::proofs::Rounding::whole_most), unfolding(crate::specs::Mean::mean_of))]
pub fn mean(total: u64, values: u64) -> u64
    requires { (0 < values → total ≤ 2 ^ 54 * values) × (values ≤ 805306368) }
    ensures { result ≡ mean_of total values }
{
    if values == 0 {
        return 0;
    }
    let twice = 2 * values;
    total / values * 1000 + (total % values * 2000 + values) / twice
}

// The first bit behind the point of the binary logarithm of x / 2^63: 1 where the square of that is at least 2. Cast, as it is 0 or 1.
#[tactic(auto, using(crate::proofs::Squares::bit_lt, crate::proofs::Squares::square_fits))]
fn log_bit(x: u64) -> u64
    ensures is { result ≡ log_bit x }
    ensures small { result < 2 }
{
    ((u128::from(x) * u128::from(x)) >> 127) as u64
}

// The square of x / 2^63, halved where it is at least 2, in 2^-63ths and rounded down. Cast, as it is below 2^64.
#[tactic(auto, using(crate::proofs::Squares::scaled_lt, crate::proofs::Squares::scaled_le, crate::proofs::Squares::square_fits))]
fn scaled_square(x: u64) -> u64
    requires { 2 ^ 63 ≤ x }
    ensures is { result ≡ scaled_square x }
    ensures again { 2 ^ 63 ≤ result }
{
    ((u128::from(x) * u128::from(x)) >> (63 + log_bit(x))) as u64
}

// How many bits behind the point of a logarithm are worked out.
const BITS: u32 = 48;

// The binary logarithm of a number in 2^-48ths, by squaring: at most two of these below the true one.
#[tactic(auto, using(crate::proofs::Bits::lead_lt))]
fn logarithm(n: u64) -> u64
    requires { 0 < n }
    ensures value { result ≡ log_in 48 n }
    ensures small { result < 2 ^ 54 }
{
    let lead = n.leading_zeros();
    let mut x = n << lead;
    let mut log = u64::from(63 - lead) << BITS;
    for i in 0..BITS {
        log += log_bit(x) << (BITS - 1 - i);
        x = scaled_square(x);
    }
    log
}

// 1000 times the decimal logarithm of 2, in 2^-64ths: what a binary logarithm of 1 is in hundredths of a decibel. Two logarithms of 48 bits
// behind the point leave the ratio within 2^-38 of a hundredth before it is rounded.
const HUNDREDTHS: u128 = 5553023288523357132280;

// The peak signal-to-noise ratio, 10 log10 (255^2 * values / total), in hundredths of a decibel, rounded to the nearest: a figure
// next to a half, within 2^-38 of a hundredth, may go to either side. It is 0 where the total is greater than that of a picture that is
// wrong by 255 everywhere, and there is none where the total is 0. Cast, as it is below 2^15.
#[tactic(auto, unfolding(crate::specs::Psnr::psnr_of))]
pub fn psnr(total: u64, values: u64) -> Option<u64>
    requires { (0 < total → 0 < values) × (values ≤ 805306368) }
    ensures { result ≡ psnr_of total values }
{
    if total == 0 {
        return None;
    }
    let apart = logarithm(65025 * values).saturating_sub(logarithm(total));
    Some(((u128::from(apart) * HUNDREDTHS + (1 << 111)) >> 112) as u64)
}
