//! Writing attribute lines.

ghost use Rattle.std.specs.Prelude.{◌≡◌, ◌++◌, decimal, IfOk, OnErr, OnOk};
ghost use Rattle.gs_sdp.specs.Lines.{line_text};
ghost use Rattle.gs_sdp.specs.Table.{body_text, setting_name};

use crate::attributes::SettingName;
use gs_bytes::{OutOfMemory, Text};
use gs_rtp::Settings;
use itoa::Buffer;
use std::alloc::{AllocError, Global};

/// How many bytes of a line are neither its name nor its value.
const AROUND: usize = 5;

/// Writes an attribute line with a number behind other text, ended by CR LF. Where memory is
/// wanting, the text stays as it was.
pub fn push_line(out: &mut Vec<u8>, name: &[u8], value: u32) -> Result<(), AllocError>
    ensures ok { OnOk result (out.new.items ≡ out.old.items ++ line_text name.now (decimal value)) }
    ensures err { OnErr result (out.new.items ≡ out.old.items) }
{
    let mut buffer = Buffer::new();
    let digits = buffer.format(value).as_bytes();
    out.reserve(AROUND + name.len() + digits.len())?;
    out.extend_from_slice(b"a=").unwrap();
    out.extend_from_slice(name).unwrap();
    out.extend_from_slice(b":").unwrap();
    out.extend_from_slice(digits).unwrap();
    out.extend_from_slice(b"\r\n").unwrap();
    Ok(())
}

fn push_setting(out: &mut Vec<u8>, name: SettingName, value: u32) -> Result<(), AllocError>
    ensures { OnOk result (out.new.items ≡ out.old.items ++ line_text (setting_name name) (decimal value)) }
{
    push_line(out, name.attribute(), value)
}

/// The body that announces settings: the lines of the four names, in their order.
pub fn body_of(alloc: Global, settings: &Settings) -> Result<Text, OutOfMemory>
    ensures { IfOk result (λ text. text ≡ body_text settings.now) }
{
    let mut out = Vec::new(alloc);
    push_setting(
        &mut out,
        SettingName::PacketSize,
        u32::from(settings.packet),
    )?;
    push_setting(&mut out, SettingName::MaxFps, u32::from(settings.fps))?;
    push_setting(&mut out, SettingName::Minimum, u32::from(settings.minimum))?;
    push_setting(
        &mut out,
        SettingName::Duration,
        u32::from(settings.duration),
    )?;
    Ok(Text::from_vec(out))
}
