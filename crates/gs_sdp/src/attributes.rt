//! The attributes that name settings.

ghost use Rattle.std.specs.Prelude.{◌≡◌};

use thiserror::Error;

/// A setting that an attribute names.
#[derive(Clone, Copy, Debug, PartialEq, Eq)]
pub enum SettingName {
    PacketSize,
    MaxFps,
    Minimum,
    Duration,
}

impl SettingName {
    ghost use Rattle.gs_sdp.specs.Table.{setting_name};

    /// The name of the attribute.
    pub fn attribute(self) -> &'static [u8]
        ensures { result.now ≡ setting_name self }
    {
        match self {
            SettingName::PacketSize => b"x-nv-video[0].packetSize",
            SettingName::MaxFps => b"x-nv-video[0].maxFPS",
            SettingName::Minimum => b"x-nv-vqos[0].fec.minRequiredFecPackets",
            SettingName::Duration => b"x-nv-aqos.packetDuration",
        }
    }
}

/// A setting whose value is out of range or no number.
#[derive(Clone, Copy, Debug, PartialEq, Eq, Error)]
#[error("a setting is out of range or no number: {0:?}")]
pub struct BadSetting(pub SettingName);
