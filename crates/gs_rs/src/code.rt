// The two codes that callers make.
ghost use Rattle.std.specs.Prelude.{◌≡◌, ◌+◌, ◌<◌, ◌⊎◌, ◌↔◌, IsErr, IfOk};
ghost use Rattle.gs_rs.specs.declared.shape.CodeShape.{CodeShape};
ghost use Rattle.gs_rs.specs.Limits.{most_shards_of_code};
ghost use Rattle.gs_rs.specs.Shape.{IsCode, video_code, audio_code};

use crate::limits::MAX_SHARDS;
use crate::shape::{CodeShape, Form};
use std::marker::Model;
use thiserror::Error;

const AUDIO_DATA: usize = 4;

const AUDIO_PARITY: usize = 2;

/// The counts of a code are out of range.
#[derive(Clone, Copy, Debug, PartialEq, Eq, Error)]
#[error("no code has so many data and parity shards")]
pub struct BadCounts;

/// An erasure code. Contracts see it as its counts and its form.
#[derive(Clone, Copy, Debug, PartialEq, Eq)]
pub struct Code {
    shape: CodeShape,
}

impl Model for Code {
    ghost Value = { CodeShape };

    ghost view = { λ c. c.shape };

    ghost invariant = { λ c. IsCode c.shape };

    ghost inverse = { λ s. record { shape = s } };
}

impl Code {
    /// The video code of `d` data shards and `p` parity shards.
    pub fn video(d: usize, p: usize) -> Result<Code, BadCounts>
        ensures bad_counts { IsErr result ↔ ((d ≡ 0) ⊎ (most_shards_of_code < d + p)) }
        ensures code { IfOk result (λ code. code ≡ video_code d p) }
    {
        if d == 0 || d > MAX_SHARDS || p > MAX_SHARDS - d {
            return Err(BadCounts);
        }
        Ok(Code {
            shape: CodeShape {
                data: d,
                parity: p,
                form: Form::Video,
            },
        })
    }

    /// The audio code, of four data shards and two parity shards.
    pub fn audio() -> Code
        ensures { result ≡ audio_code }
    {
        Code {
            shape: CodeShape {
                data: AUDIO_DATA,
                parity: AUDIO_PARITY,
                form: Form::Audio,
            },
        }
    }

    /// How many data shards a block has.
    pub fn data(&self) -> usize
        ensures count { result ≡ self.now.data }
        ensures limits { IsCode self.now }
    {
        self.shape.data
    }

    /// How many parity shards a block has.
    pub fn parity(&self) -> usize
        ensures count { result ≡ self.now.parity }
        ensures limits { IsCode self.now }
    {
        self.shape.parity
    }

    pub(crate) fn shape(&self) -> CodeShape
        ensures counts { result ≡ self.now }
        ensures limits { IsCode result }
    {
        self.shape
    }
}
