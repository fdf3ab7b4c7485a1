//! How a line of columns is printed.

ghost use Rattle.std.specs.Prelude.{◌≡◌, ◌-◌, [], ◌∷◌, ◌++◌, decimal, length, map, replicate, OnOk};
ghost use Rattle.std.specs.List.{flat_map};
ghost use Rattle.umem_base.specs.Numbers.{hexadecimal};
ghost use Rattle.dcmd.specs.Columns.{after_zeros, column_text, left_aligned, line_of, padded_hexadecimal};

use crate::column::Column;
use umem_base::{NoMemory, Text, put_decimal, put_hex};

/// Appends a line of columns, with its end.
#[inline(always)]
pub(crate) fn put_line(
    out: &mut Text,
    first: Column<'_>,
    more: &[Column<'_>],
) -> Result<(), NoMemory>
    ensures { OnOk result (out.new ≡ out.old ++ line_of (column_text first.entry ∷ map column_text more.now)) }
{
    put_column(out, first)?;
    put_behind(out, more)?;
    out.push_slice(b"\n")
}

/// Appends each column behind a space.
#[inline(always)]
fn put_behind(out: &mut Text, columns: &[Column<'_>]) -> Result<(), NoMemory>
    ensures { OnOk result (out.new ≡ out.old ++ flat_map (λ column. 32 ∷ column_text column) columns.now) }
{
    for column in columns {
        out.push_slice(b" ")?;
        put_column(out, *column)?;
    }
    Ok(())
}

#[inline(always)]
fn put_column(out: &mut Text, column: Column<'_>) -> Result<(), NoMemory>
    ensures { OnOk result (out.new ≡ out.old ++ column_text column.entry) }
{
    match column {
        Column::Word(bytes) => out.push_slice(bytes),
        Column::Decimal(value) => put_plain_decimal(out, value),
        Column::Hex(value) => put_plain_hex(out, value),
        Column::LeftWord { width, bytes } => put_left(out, bytes, width),
        Column::RightDecimal { width, value } => put_decimal(out, value, width),
        Column::RightHex { width, value } => put_hex(out, value, width),
        Column::PaddedHex { width, value } => put_padded_hex(out, value, width),
    }
}

#[inline(always)]
fn put_plain_decimal(out: &mut Text, value: u64) -> Result<(), NoMemory>
    ensures { OnOk result (out.new ≡ out.old ++ decimal value) }
{
    put_decimal(out, value, 0)
}

#[inline(always)]
fn put_plain_hex(out: &mut Text, value: u64) -> Result<(), NoMemory>
    ensures { OnOk result (out.new ≡ out.old ++ hexadecimal value) }
{
    put_hex(out, value, 0)
}

/// Appends a byte again and again.
#[inline(always)]
fn put_fill(out: &mut Text, byte: u8, count: usize) -> Result<(), NoMemory>
    ensures { OnOk result (out.new ≡ out.old ++ replicate count byte) }
{
    for _ in 0..count {
        out.push_slice(&[byte])?;
    }
    Ok(())
}

#[inline(always)]
fn put_left(out: &mut Text, bytes: &[u8], width: usize) -> Result<(), NoMemory>
    ensures { OnOk result (out.new ≡ out.old ++ left_aligned width bytes.now) }
{
    out.push_slice(bytes)?;
    put_fill(out, b' ', width.saturating_sub(bytes.len()))
}

#[inline(always)]
fn put_after_zeros(out: &mut Text, bytes: &[u8], width: usize) -> Result<(), NoMemory>
    ensures { OnOk result (out.new ≡ out.old ++ after_zeros width bytes.now) }
{
    put_fill(out, b'0', width.saturating_sub(bytes.len()))?;
    out.push_slice(bytes)
}

fn put_padded_hex(out: &mut Text, value: u64, width: usize) -> Result<(), NoMemory>
    ensures { OnOk result (out.new ≡ out.old ++ padded_hexadecimal width value) }
{
    let mut digits = Text::new(out.allocator());
    put_plain_hex(&mut digits, value)?;
    put_after_zeros(out, digits.as_slice(), width)
}
