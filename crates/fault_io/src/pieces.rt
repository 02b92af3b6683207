ghost use Rattle.std.specs.Prelude.{◌≡◌, ◌↔◌, ◌<◌, ◌≤◌, ◌++◌, [], false, true, IfOk, IsTrue, OnErr, OnOk, drop, length, min, take};
ghost use Rattle.std.specs.Io.{ReadsAtMost};
ghost use Rattle.std.specs.Io.KnownBytes.{Consumes, IsAtEnd, Keeps, ReadConsumes, prepend_known};
ghost use Rattle.fault_io.specs.Causes.{HasCause, RemembersEnd};
ghost use Rattle.fault_io.specs.Pieces.{IsGivenOn, IsNewPiece, IsRefilled, IsSmall};

use crate::mem_source::give;
use crate::traits::{Failed, Source};
use std::marker::Model;

/// How many bytes a piece has at most.
const PIECE: usize = 4096;

/// How many bytes are asked of the source of a script: one more than a script may have.
const MOST_ASKED: usize = 16_777_217;

/// A piece of a source. Contracts see what is left of it.
pub struct Piece {
    bytes: [u8; PIECE],
    at: usize,
    end: usize,
}

impl Drop for Piece {
    fn drop(self) {
        let Self {
            bytes: _,
            at: _,
            end: _,
        } = self;
    }
}

impl Model for Piece {
    ghost use Rattle.std.specs.Prelude.{◌≡◌, ◌≤◌, List, ℕ, drop, length, take};

    ghost Value = { List ℕ };

    ghost view = { λ p. drop p.at (take p.end p.bytes) };

    ghost invariant = { λ p. (p.at ≤ p.end) × (p.end ≤ 4096) × (length p.bytes ≡ 4096) };
}

/// What stands between two places of bytes.
fn between(bytes: &[u8], at: usize, end: usize) -> &[u8]
    requires order { at ≤ end }
    requires within { end ≤ length bytes.now }
    ensures { result.now ≡ drop at (take end bytes.now) }
{
    bytes.split_at(end).0.split_at(at).1
}

impl Piece {
    /// No bytes.
    fn new() -> Piece
        ensures { result ≡ [] }
    {
        Piece {
            bytes: [0; PIECE],
            at: 0,
            end: 0,
        }
    }

    /// Whether nothing is left.
    fn is_empty(&self) -> bool
        ensures { IsTrue result ↔ (self.now ≡ []) }
    {
        between(&self.bytes, self.at, self.end).is_empty()
    }

    /// Puts the next bytes at the front of a buffer, as many as there are and as it holds; they are then
    /// no longer left.
    fn give(&mut self, buf: &mut [u8]) -> usize
        ensures count { result ≡ min (length self.old) (length buf.old) }
        ensures given { self.old ≡ take result buf.new ++ self.new }
    {
        let count = give(between(&self.bytes, self.at, self.end), buf);
        self.at += count;
        count
    }

    /// The next piece of a source.
    fn fill<S: Source>(&mut self, source: &mut S) -> Result<(), Failed>
        ensures ok { OnOk result (Consumes (S.left source.old) (S.left source.new) self.new) }
        ensures end { OnOk result (self.new ≡ [] → IsAtEnd (S.left source.new)) }
        ensures size { length self.new ≤ 4096 }
        ensures err { OnErr result (self.new ≡ []) }
        ensures same { OnErr result (Keeps (S.left source.old) (S.left source.new)) }
        ensures cause { HasCause (S.faults source.old) (S.faults source.new) result }
    {
        self.at = 0;
        self.end = 0;
        let count = source.read(&mut self.bytes)?;
        if count == 0 {
            return Ok(());
        }
        self.end = count;
        Ok(())
    }

    /// The next byte of a source.
    #[tactic(auto, using(crate::proofs::Piecewise::first_set))]
    fn fill_one<S: Source>(&mut self, source: &mut S) -> Result<(), Failed>
        ensures ok { OnOk result (Consumes (S.left source.old) (S.left source.new) self.new) }
        ensures end { OnOk result (self.new ≡ [] → IsAtEnd (S.left source.new)) }
        ensures size { length self.new ≤ 1 }
        ensures err { OnErr result (self.new ≡ []) }
        ensures same { OnErr result (Keeps (S.left source.old) (S.left source.new)) }
        ensures cause { HasCause (S.faults source.old) (S.faults source.new) result }
    {
        self.at = 0;
        self.end = 0;
        let mut one = [0u8; 1];
        let count = source.read(&mut one)?;
        if count == 0 {
            return Ok(());
        }
        self.bytes[0] = one[0];
        self.end = 1;
        Ok(())
    }

    /// The next piece of a source, of which so many bytes may be read: a piece of fewer, or else a byte, as
    /// also where a call of the source has failed.
    fn fill_upto<S: Source>(&mut self, source: &mut S, most: usize) -> Result<(), Failed>
        ensures ok { OnOk result (Consumes (S.left source.old) (S.left source.new) self.new) }
        ensures end { OnOk result (self.new ≡ [] → IsAtEnd (S.left source.new)) }
        ensures size { IsNewPiece self.new most (S.faults source.old) }
        ensures err { OnErr result (self.new ≡ []) }
        ensures same { OnErr result (Keeps (S.left source.old) (S.left source.new)) }
        ensures cause { HasCause (S.faults source.old) (S.faults source.new) result }
    {
        if most <= PIECE || source.fault_count() != 0 {
            return self.fill_one(source);
        }
        self.fill(source)
    }
}

/// Where nothing is left of the piece and the source hasn't ended, the next piece of the source, of which
/// so many bytes may be read.
fn refill<S: Source>(
    piece: &mut Piece,
    source: &mut S,
    ended: &mut bool,
    most: usize,
) -> Result<(), Failed>
    requires over { ended.old ≡ true → IsAtEnd (S.left source.old) }
    ensures kept { Keeps (prepend_known piece.old (S.left source.old)) (prepend_known piece.new (S.left source.new)) }
    ensures end { OnOk result (piece.new ≡ [] → IsAtEnd (S.left source.new)) }
    ensures over { ended.new ≡ true → IsAtEnd (S.left source.new) }
    ensures stays { ended.old ≡ true → ended.new ≡ true }
    ensures none { OnOk result (piece.new ≡ [] → ended.new ≡ true) }
    ensures fails { OnErr result ((ended.old ≡ false) × (ended.new ≡ false)) }
    ensures size { IsRefilled piece.old piece.new most (S.faults source.old) }
    ensures err { OnErr result (piece.new ≡ []) }
    ensures cause { HasCause (S.faults source.old) (S.faults source.new) result }
{
    if *ended || !piece.is_empty() {
        return Ok(());
    }
    match piece.fill_upto(source, most) {
        Ok(()) => {
            *ended = piece.is_empty();
            Ok(())
        }
        Err(fault) => Err(fault),
    }
}

/// Gives the next bytes of the piece, or of the next piece of the source, of which so many bytes may be
/// read.
fn give_on<S: Source>(
    piece: &mut Piece,
    source: &mut S,
    ended: &mut bool,
    most: usize,
    buf: &mut [u8],
) -> Result<usize, Failed>
    requires over { ended.old ≡ true → IsAtEnd (S.left source.old) }
    ensures bound { ReadsAtMost result buf.new }
    ensures bytes { ReadConsumes (prepend_known piece.old (S.left source.old)) (prepend_known piece.new (S.left source.new)) result buf.new }
    ensures over { ended.new ≡ true → IsAtEnd (S.left source.new) }
    ensures remembers { RemembersEnd ended.old ended.new (length buf.old) result }
    ensures small { IfOk result (λ n. IsGivenOn piece.old most (S.faults source.old) (length buf.old) n piece.new) }
    ensures err { OnErr result (piece.new ≡ []) }
    ensures cause { HasCause (S.faults source.old) (S.faults source.new) result }
{
    refill(piece, source, ended, most)?;
    Ok(piece.give(buf))
}

/// A source that is read by pieces: what is left of it is what is left of a piece, and of the source behind
/// it. It asks that one in calls of at most 4,096 bytes, for one byte at a time behind those of a script and
/// where a call of it has failed, and for none any more where it has ended. Contracts see what is left of
/// the piece, how many bytes were given on, whether it has ended, and the source.
pub struct Pieces<S: Source> {
    piece: Piece,
    given: usize,
    ended: bool,
    source: S,
}

impl<S: Source + Drop> Drop for Pieces<S> {
    fn drop(self) {
        let Self {
            piece: _,
            given: _,
            ended: _,
            source: _,
        } = self;
    }
}

impl<S: Source> Model for Pieces<S> {
    ghost use Rattle.std.specs.Prelude.{◌≡◌, true};
    ghost use Rattle.std.specs.Io.KnownBytes.{IsAtEnd};
    ghost use Rattle.fault_io.specs.Pieces.{IsSmall, Kept};

    ghost Value = { Kept S };

    ghost view = { λ p. record { piece = p.piece; given = p.given; ended = p.ended; source = p.source } };

    ghost invariant = { λ p. IsSmall p.given p.piece (S.faults p.source) × (p.ended ≡ true → IsAtEnd (S.left p.source)) };
}

impl<S: Source> Pieces<S> {
    /// A source of which nothing was given on.
    pub fn new(source: S) -> Pieces<S>
        ensures { result ≡ record { piece = []; given = 0; ended = false; source = source } }
    {
        Pieces {
            piece: Piece::new(),
            given: 0,
            ended: false,
            source,
        }
    }

    /// The source behind the piece. The piece is small: with it no more was read than a script may have, and
    /// there is none where a call of the source has failed.
    pub fn into_source(self) -> S
        ensures source { result ≡ self.source }
        ensures small { IsSmall self.given self.piece (S.faults self.source) }
    {
        let Pieces {
            piece: _,
            given: _,
            ended: _,
            source,
        } = self;
        source
    }
}

impl<S: Source> Source for Pieces<S> {
    ghost use Rattle.std.specs.Io.KnownBytes.{prepend_known};

    ghost left = { λ p. prepend_known p.piece (S.left p.source) };

    ghost given = { λ p. p.given };

    ghost faults = { λ p. S.faults p.source };

    ghost ended = { λ p. p.ended };

    fn read(&mut self, buf: &mut [u8]) -> Result<usize, Failed> {
        let most = MOST_ASKED.saturating_sub(self.given);
        if buf.is_empty() {
            return Ok(0);
        }
        let count = give_on(
            &mut self.piece,
            &mut self.source,
            &mut self.ended,
            most,
            buf,
        )?;
        self.given = self.given.saturating_add(count);
        Ok(count)
    }

    fn fault_count(&self) -> u64 {
        self.source.fault_count()
    }
}
