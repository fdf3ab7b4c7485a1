ghost use Rattle.std.specs.Prelude.{◌≡◌, ℕ, ◌+◌, ◌-◌, ◌*◌, ◌^◌, ◌≤◌, ◌<◌, ◌↔◌, List, ◌++◌, length, sum, take, drop, vec_len, IsTrue, IfOk, IfErr, IsErr, OnOk, OnErr};
ghost use Rattle.std.specs.List.{list_all};
ghost use Rattle.case_table.specs.Record.{AreWidths, Fit, StandAt, is_width, layout_of, numbers_at, spelling};
ghost use Rattle.byteorder.specs.Endian.{little_bytes};

use byteorder::{ByteOrder, LittleEndian};
use std::marker::Model;
use umem_base::NoMemory;

/// Fewer bytes are left from `at` on than the record has that begins there.
#[derive(Clone, Copy, Debug, PartialEq, Eq)]
pub struct Short {
    pub at: usize,
}

/// The widths in bytes of a record's `N` fields, which follow one another with nothing between them.
/// Contracts see the list of the widths. Such records are this project's own.
#[derive(Debug, Drop)]
pub struct Layout<const N: usize> {
    widths: [u8; N],
}

impl<const N: usize> Model for Layout<N> {
    ghost use Rattle.std.specs.Prelude.{List, ℕ};
    ghost use Rattle.case_table.specs.Record.{AreWidths};

    ghost Value = { List ℕ };

    ghost view = { λ l. l.widths };

    ghost invariant = { λ l. AreWidths l.widths };
}

impl<const N: usize> Layout<N> {
    /// A layout of fields of 1, 2, 4 and 8 bytes, and none where a width is another.
    pub fn new(widths: [u8; N]) -> Option<Layout<N>>
        requires { 8 * N < 2 ^ 63 }
        ensures { result ≡ layout_of widths.entry }
    {
        if are_widths(&widths) {
            Some(Layout { widths })
        } else {
            None
        }
    }

    /// The bytes of a record.
    pub fn length(&self) -> usize
        ensures value { result ≡ sum self.now }
        ensures fits { result < 2 ^ 63 }
    {
        sum_of(&self.widths)
    }

    /// Appends the record of the values, each in its field's bytes, the lowest first. On refusal `out`
    /// is as before.
    pub fn put_record(&self, out: &mut Vec<u8>, values: &[u64; N]) -> Result<(), NoMemory>
        requires { Fit self.now values.now }
        ensures ok { OnOk result (out.new.items ≡ out.old.items ++ spelling self.now values.now) }
        ensures err { OnErr result (out.new.items ≡ out.old.items) }
    {
        let before = out.len();
        let put = put_fields(out, &self.widths, values);
        if put.is_err() {
            out.truncate(before);
        }
        put
    }

    /// The values of the record that stands in the bytes at `at`, whatever follows it.
    pub fn take_record(&self, bytes: &[u8], at: usize) -> Result<[u64; N], Short>
        requires { at ≤ length bytes.now }
        ensures numbers { IfOk result (λ values. values ≡ numbers_at self.now (drop at bytes.now)) }
        // The bytes that were read are those of the values.
        ensures found { IfOk result (StandAt self.now bytes.now at) }
        // Values whose bytes stand there are the answer.
        ensures only { (values : List ℕ) → StandAt self.now bytes.now at values → result ≡ Ok values }
        ensures short { IsErr result ↔ (length bytes.now - at < sum self.now) }
        ensures place { IfErr result (λ short. short.at ≡ at) }
    {
        let rest = &bytes[at..];
        if rest.len() < self.length() {
            return Err(Short { at });
        }
        let mut values = [0; N];
        take_fields(rest, &self.widths, &mut values);
        Ok(values)
    }
}

fn are_widths(widths: &[u8]) -> bool
    ensures { result ≡ list_all is_width widths.now }
{
    widths.iter().all(|width| matches!(*width, 1 | 2 | 4 | 8))
}

fn sum_of(widths: &[u8]) -> usize
    requires { sum widths.now < 2 ^ 63 }
    ensures { result ≡ sum widths.now }
{
    widths.iter().map(|width| *width as usize).sum()
}

fn put_field(out: &mut Vec<u8>, width: u8, value: u64) -> Result<(), NoMemory>
    requires width { IsTrue (is_width width) }
    requires fits { value < 256 ^ width }
    ensures ok { OnOk result (out.new.items ≡ out.old.items ++ little_bytes width value) }
    ensures err { OnErr result (out.new.items ≡ out.old.items) }
{
    let mut bytes = [0; 8];
    let width = width as usize;
    LittleEndian::write_uint(&mut bytes, value, width);
    out.extend_from_slice(&bytes[..width])?;
    Ok(())
}

fn put_fields(out: &mut Vec<u8>, widths: &[u8], values: &[u64]) -> Result<(), NoMemory>
    requires widths { AreWidths widths.now }
    requires fit { Fit widths.now values.now }
    ensures ok { OnOk result (out.new.items ≡ out.old.items ++ spelling widths.now values.now) }
    ensures front { take (vec_len out.old) out.new.items ≡ out.old.items }
{
    for (i, width) in widths.iter().enumerate() {
        put_field(out, *width, values[i])?;
    }
    Ok(())
}

fn take_fields(bytes: &[u8], widths: &[u8], values: &mut [u64])
    requires widths { AreWidths widths.now }
    requires room { sum widths.now ≤ length bytes.now }
    requires places { length values.old ≡ length widths.now }
    ensures { StandAt widths.now bytes.now 0 values.new }
{
    let mut place = 0;
    for (i, width) in widths.iter().enumerate() {
        let width = *width as usize;
        values[i] = LittleEndian::read_uint(&bytes[place..], width);
        place += width;
    }
}
