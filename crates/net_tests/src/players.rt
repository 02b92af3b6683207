// Stages that play a written list: they take frames, give frames, and the first prints what it took.
ghost use Rattle.std.specs.Prelude.{◌≡◌, IfOk, IsTrue};
ghost use Rattle.frame_codec.specs.Frames.{is_lawful};
ghost use Rattle.net_tests.specs.Playing.{frame_of};

use base_trait::Base;
use fault_io::{Shelf, Sink, Source, write_all};
use frame_codec::Frame;
use memory::{List, OutOfMemory};
use net_core::{Room, Stage, TakeFault, Want, WorkFault};
use std::alloc::Global;

/// What a player does next.
#[derive(Clone, Copy, Debug, PartialEq, Eq)]
pub(crate) enum Act {
    /// It takes a frame from its left.
    TakeLeft,
    /// It takes a frame from its right.
    TakeRight,
    /// It prints what it took, where it is the first stage; any other forgets it.
    Print,
}

/// A move of a player: an act, and then the letters that it gives to its left and its right.
#[derive(Clone, Copy)]
pub(crate) struct Move {
    /// What it does.
    pub act: Act,
    /// What it gives to its left, a frame for each letter.
    pub left: &'static [u8],
    /// What it gives to its right.
    pub right: &'static [u8],
}

/// A stage that plays a list of moves. It does what the stages of no user do.
pub(crate) struct Player {
    number: u8,
    moves: &'static [Move],
    left: &'static [u8],
    right: &'static [u8],
    got: Vec<u8>,
}

impl Drop for Player {
    fn drop(self) {
        let Self {
            number: _,
            moves: _,
            left: _,
            right: _,
            got: _,
        } = self;
    }
}

impl Player {
    /// A player with this number, who makes these moves.
    pub(crate) fn new(alloc: Global, number: u8, moves: &'static [Move]) -> Player {
        Player {
            number,
            moves,
            left: b"",
            right: b"",
            got: Vec::new(alloc),
        }
    }

    /// What was taken is forgotten, and the move is made.
    fn forget(&mut self)
        ensures number { self.new.number ≡ self.old.number }
    {
        self.got.clear();
        self.go_on();
    }

    /// The move is made, and what it gives is to be given.
    fn go_on(&mut self)
        ensures got { self.new.got.items ≡ self.old.got.items }
        ensures number { self.new.number ≡ self.old.number }
    {
        if let Some((first, rest)) = self.moves.split_first() {
            self.left = first.left;
            self.right = first.right;
            self.moves = rest;
        }
    }
}

/// The frame of a letter.
fn frame_with(alloc: Global, letter: u8) -> Result<Frame, OutOfMemory>
    ensures is { IfOk result (λ frame. frame ≡ frame_of letter) }
    ensures form { IfOk result (λ frame. IsTrue (is_lawful frame)) }
{
    let payload = [letter].to_vec(alloc)?;
    Ok(Frame {
        kind: 1,
        payload: List::of(payload),
    })
}

impl Stage for Player {
    ghost use Rattle.net_tests.specs.Playing.{playing};

    ghost state = { λ p. playing p.moves.now p.left.now p.right.now };

    ghost serves = { λ _ _. ⊥ };

    ghost place = { λ p. p.number };

    ghost heard = { λ _. 0 };

    fn number(&self) -> u8 {
        self.number
    }

    fn want(&self) -> Want {
        if !self.left.is_empty() {
            return Want::GiveLeft;
        }
        if !self.right.is_empty() {
            return Want::GiveRight;
        }
        match self.moves.first() {
            None => Want::Ended,
            Some(first) => match first.act {
                Act::TakeLeft => Want::TakeLeft,
                Act::TakeRight => Want::TakeRight,
                Act::Print => Want::Work,
            },
        }
    }

    fn take(&mut self, _alloc: Global, frame: Frame) -> Result<(), TakeFault> {
        if self.got.extend_from_slice(frame.payload.items()).is_err() {
            return Err(TakeFault::OutOfMemory);
        }
        self.go_on();
        Ok(())
    }

    fn give(&mut self, alloc: Global) -> Result<Frame, OutOfMemory> {
        if let Some((letter, rest)) = self.left.split_first() {
            let frame = frame_with(alloc, *letter)?;
            self.left = rest;
            return Ok(frame);
        }
        if let Some((letter, rest)) = self.right.split_first() {
            let frame = frame_with(alloc, *letter)?;
            self.right = rest;
            return Ok(frame);
        }
        Err(OutOfMemory)
    }

    #[tactic(auto, using(net_core::proofs::Faulty::reads_nothing, net_core::proofs::Faulty::within_nothing))]
    fn work<B: Base, H: Shelf, S: Source, K: Sink>(
        &mut self,
        _alloc: Global,
        room: &mut Room<B, H, S, K>,
    ) -> Result<(), WorkFault> {
        if self.number != 1 {
            self.forget();
            return Ok(());
        }
        match write_all(&mut room.sink, &self.got) {
            Ok(()) => {
                self.forget();
                Ok(())
            }
            Err(_) => Err(WorkFault::Sink),
        }
    }
}
