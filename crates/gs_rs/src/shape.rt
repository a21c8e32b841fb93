// What a code is made of: its counts of shards and its form, and what they determine, the points of the shards, the
// coefficients of the parity rows and the denominators.
ghost use Rattle.std.specs.Prelude.{
  ◌≡◌,
  ◌+◌,
  ◌<◌,
  ◌≤◌,
  take,
  length,
};
ghost use Rattle.gs_rs.specs.Limits.{most_shards_of_code};
ghost use Rattle.gs_rs.specs.Shape.{
  IsCode,
  shard_count,
  point,
  coefficient,
  denominator,
  data_points,
  differences,
};

use crate::limits::MAX_SHARDS;
use gs_gf256::{exp, inv, log};

const AUDIO_POINTS: [u8; 6] = [0, 1, 2, 4, 8, 16];

const AUDIO_ROWS: [[u8; 4]; 2] = [[0x77, 0x40, 0x38, 0x0E], [0xC7, 0xA7, 0x0D, 0x6C]];

/// Which of the two codes: how its shards' points lie.
#[derive(Clone, Copy, Debug, PartialEq, Eq)]
pub enum Form {
    Video,
    Audio,
}

/// A code's counts of shards and its form.
#[derive(Clone, Copy, Debug, PartialEq, Eq)]
pub struct CodeShape {
    pub data: usize,
    pub parity: usize,
    pub form: Form,
}

impl CodeShape {
    /// The point at which a shard stands.
    pub(crate) fn point(&self, shard: usize) -> u8
        requires code { IsCode self.now }
        requires in_range { shard < shard_count self.now }
        ensures { result ≡ point self.now shard }
    {
        match self.form {
            Form::Video => {
                if shard < self.data {
                    (self.parity + shard) as u8
                } else {
                    (shard - self.data) as u8
                }
            }
            Form::Audio => AUDIO_POINTS[shard],
        }
    }

    /// The factor that a data shard has in a parity shard.
    pub(crate) fn coefficient(&self, row: usize, shard: usize) -> u8
        requires code { IsCode self.now }
        requires row_in { row < self.now.parity }
        requires shard_in { shard < self.now.data }
        ensures { result ≡ coefficient self.now row shard }
    {
        match self.form {
            Form::Video => inv((self.parity + shard) as u8 ^ row as u8),
            Form::Audio => AUDIO_ROWS[row][shard],
        }
    }

    /// What a polynomial's value at a point is divided by, by the points of the data shards.
    pub(crate) fn denominator(&self, own: &[u8], x: u8) -> u8
        requires code { IsCode self.now }
        requires own { own.now ≡ data_points self.now }
        ensures { result ≡ denominator self.now x }
    {
        match self.form {
            Form::Video => differences(own, x),
            Form::Audio => 1,
        }
    }

    /// The points of the data shards.
    pub(crate) fn data_points(&self) -> [u8; MAX_SHARDS]
        requires code { IsCode self.now }
        ensures { take self.now.data result ≡ data_points self.now }
    {
        let mut points = [0; MAX_SHARDS];
        for i in 0..self.data {
            points[i] = self.point(i);
        }
        points
    }
}

/// The product of `x xor y` over the points y other than x: the sum of their logarithms, and of 0 for x
/// itself, so that no factor waits for the one before it.
pub(crate) fn differences(points: &[u8], x: u8) -> u8
    requires { length points.now ≤ most_shards_of_code }
    ensures { result ≡ differences points.now x }
{
    let mut exponent = 0;
    for y in points {
        exponent += u32::from(log(x ^ *y));
    }
    exp(exponent)
}
