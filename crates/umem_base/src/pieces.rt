ghost use Rattle.std.specs.Prelude.{◌≡◌, ◌≤◌, ℕ, List, Option, ⊤, length, IfOk};
ghost use Rattle.std.specs.Io.KnownBytes.{ReadConsumes};
ghost use Rattle.umem_base.specs.Faults.{Counts};
ghost use Rattle.umem_base.specs.Folder.{Files, IsReading, left_of};
ghost use Rattle.umem_base.specs.Transfer.{CountsFault, LeavesBehind, ReadsAll};

use crate::outside::{Failed, Folder, Source};
use crate::read_all_error::ReadAll;
use std::alloc::Global;

// How many bytes one read asks for.
const PIECE: usize = 4096;

/// How a device gives its bytes, piece by piece: so one loop reads a source, and the file that a folder has open.
pub(crate) trait Pieces<D> {
    /// The bytes that are left, where the device tells them.
    ghost left: { D → Option (List ℕ) };

    /// How often a read has failed.
    ghost faults: { D → ℕ };

    /// It can be read.
    ghost IsReady: { D → Type 0 };

    ghost Rest: { Type 0 };

    /// What a read leaves as it was.
    ghost rest: { D → Rest };

    /// As `Source::read`.
    fn next_piece(from: &mut D, buffer: &mut [u8]) -> Result<usize, Failed>
        requires { IsReady from.old }
        ensures bound { IfOk result (λ n. n ≤ length buffer.new) }
        ensures ready { IsReady from.new }
        ensures moved { ReadConsumes (left from.old) (left from.new) result buffer.new }
        ensures cause { Counts (faults from.old) (faults from.new) result }
        ensures rest { rest from.new ≡ rest from.old };
}

/// The pieces of a source.
pub(crate) struct OfSource;

impl<S: Source> Pieces<S> for OfSource {
    ghost left = { S.left };

    ghost faults = { S.faults };

    ghost IsReady = { λ _. ⊤ };

    ghost Rest = { Unit {0} };

    ghost rest = { λ _. tt };

    fn next_piece(from: &mut S, buffer: &mut [u8]) -> Result<usize, Failed> {
        from.read(buffer)
    }
}

/// The pieces of the file that a folder reads.
pub(crate) struct OfFolder;

impl<F: Folder> Pieces<F> for OfFolder {
    ghost left = { λ f. left_of (F.activity f) };

    ghost faults = { F.read_faults };

    ghost IsReady = { λ f. IsReading (F.activity f) };

    ghost Rest = { Files × ℕ };

    ghost rest = { λ f. (F.files f, F.write_faults f) };

    fn next_piece(from: &mut F, buffer: &mut [u8]) -> Result<usize, Failed> {
        from.read(buffer)
    }
}

/// The bytes left, if they are at most `limit`.
pub(crate) fn read_left<D, P: Pieces<D>>(
    alloc: Global,
    from: &mut D,
    limit: usize,
) -> Result<Vec<u8>, ReadAll>
    requires { P.IsReady from.old }
    ensures bytes { ReadsAll (P.left from.old) limit result }
    ensures cause { CountsFault (P.faults from.old) (P.faults from.new) result }
    ensures left { LeavesBehind (P.left from.old) limit (P.left from.new) result }
    ensures ready { P.IsReady from.new }
    ensures rest { P.rest from.new ≡ P.rest from.old }
{
    let mut bytes = Vec::new(alloc);
    let mut piece = [0; PIECE];
    loop {
        let came = P::next_piece(from, &mut piece)?;
        if came == 0 {
            return Ok(bytes);
        }
        if came > limit - bytes.len() {
            return Err(ReadAll::TooLong);
        }
        bytes.extend_from_slice(&piece[..came])?;
    }
}
