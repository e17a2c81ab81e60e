// The header's sections: whether a file's own are sound, and how they are put. Numbers are 64 bits wide, so that none is taken modulo 2^32.

ghost use Rattle.std.specs.Prelude.{◌≡◌, ◌≤◌, ◌<◌, length, drop};
ghost use Rattle.std.proofs.lemmas.List.Edits.{sets};
ghost use Rattle.dstree.specs.Recording.{header, header_size, rate_limit, size_limit, field_bytes, rate_in, size_in, begins};
ghost use Rattle.recording.specs.Sections.{riff_fields, format_fields, rate_fields, data_fields, format_place, rate_place, data_place};

use crate::letters::{DATA, FORMAT, RIFF, WAVE};
use sheet::fields::{four_bytes, put_bytes, put_four, put_two, two_bytes};

// "the letters RIFF, a size 36 above the data size, WAVE"
fn riff_fits(bytes: &[u8]) -> bool
    requires { header_size ≤ length bytes.now }
    ensures { result ≡ begins (riff_fields (size_in bytes.now)) bytes.now }
{
    if bytes[..4] != RIFF[..] {
        return false;
    }
    if four_bytes(bytes, 4) != 36 + four_bytes(bytes, 40) {
        return false;
    }
    bytes[8..12] == WAVE[..]
}

// ""fmt " of 16 bytes, format 1, one channel"
fn format_fits(bytes: &[u8]) -> bool
    requires { header_size ≤ length bytes.now }
    ensures { result ≡ begins format_fields (drop format_place bytes.now) }
{
    if bytes[12..16] != FORMAT[..] {
        return false;
    }
    if four_bytes(bytes, 16) != 16 {
        return false;
    }
    if two_bytes(bytes, 20) != 1 {
        return false;
    }
    two_bytes(bytes, 22) == 1
}

// "byte rate twice the rate, block align 2, 16 bits"
fn rates_fit(bytes: &[u8]) -> bool
    requires { header_size ≤ length bytes.now }
    ensures { result ≡ begins (rate_fields (rate_in bytes.now)) (drop rate_place bytes.now) }
{
    if four_bytes(bytes, 28) != 2 * four_bytes(bytes, 24) {
        return false;
    }
    if two_bytes(bytes, 32) != 2 {
        return false;
    }
    two_bytes(bytes, 34) == 16
}

// "data", and the data size, which is what the file says
fn data_fits(bytes: &[u8]) -> bool
    requires { header_size ≤ length bytes.now }
    ensures { result ≡ begins (data_fields (size_in bytes.now)) (drop data_place bytes.now) }
{
    bytes[36..40] == DATA[..]
}

// A file begins with the header for the rate and the size that it says.
pub fn header_fits(bytes: &[u8]) -> bool
    requires { header_size ≤ length bytes.now }
    ensures { result ≡ begins (header (rate_in bytes.now) (size_in bytes.now)) bytes.now }
{
    if !riff_fits(bytes) {
        return false;
    }
    if !format_fits(bytes) {
        return false;
    }
    if !rates_fit(bytes) {
        return false;
    }
    data_fits(bytes)
}

fn put_riff(buffer: &mut [u8], size: u64)
    requires { (header_size ≤ length buffer.old) × (size < size_limit) }
    ensures { buffer.new ≡ sets buffer.old 0 (field_bytes (riff_fields size)) }
{
    put_bytes(buffer, 0, &RIFF);
    put_four(buffer, 4, 36 + size);
    put_bytes(buffer, 8, &WAVE);
}

fn put_format(buffer: &mut [u8])
    requires { header_size ≤ length buffer.old }
    ensures { buffer.new ≡ sets buffer.old format_place (field_bytes format_fields) }
{
    put_bytes(buffer, 12, &FORMAT);
    put_four(buffer, 16, 16);
    put_two(buffer, 20, 1);
    put_two(buffer, 22, 1);
}

fn put_rates(buffer: &mut [u8], rate: u64)
    requires { (header_size ≤ length buffer.old) × (rate < rate_limit) }
    ensures { buffer.new ≡ sets buffer.old rate_place (field_bytes (rate_fields rate)) }
{
    put_four(buffer, 24, rate);
    put_four(buffer, 28, 2 * rate);
    put_two(buffer, 32, 2);
    put_two(buffer, 34, 16);
}

fn put_data(buffer: &mut [u8], size: u64)
    requires { header_size ≤ length buffer.old }
    ensures { buffer.new ≡ sets buffer.old data_place (field_bytes (data_fields size)) }
{
    put_bytes(buffer, 36, &DATA);
    put_four(buffer, 40, size);
}

// The header for a rate and a data size.
pub fn put_header(buffer: &mut [u8], rate: u64, size: u64)
    requires { (header_size ≤ length buffer.old) × (rate < rate_limit) × (size < size_limit) }
    ensures { buffer.new ≡ sets buffer.old 0 (field_bytes (header rate size)) }
{
    put_riff(buffer, size);
    put_format(buffer);
    put_rates(buffer, rate);
    put_data(buffer, size);
}
