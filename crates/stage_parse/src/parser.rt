//! The second stage.

ghost use Rattle.std.specs.Prelude.{◌≡◌, ◌≤◌, [], IfErr, IsErrOf, OnErr, OnOk};
ghost use Rattle.base_trait.specs.Causes.{HasCause};
ghost use Rattle.calculus.specs.Who.{asker_of};
ghost use Rattle.net_core.specs.Causes.{MayNotTake};
ghost use Rattle.network_meaning.specs.Calls.{Taken};
ghost use Rattle.network_meaning.specs.LocalSteps.{Mode.idle2, Want.take_left, Want.take_right, Want.work};
ghost use Rattle.network_meaning.specs.Network.{quiet_at, want};
ghost use Rattle.quel_grammar.specs.Next.{Nothing, Read, first_offset};
ghost use Rattle.quel_grammar.specs.NextReader.{next_at};
ghost use Rattle.quel_network.specs.Quel.{quel};
ghost use Rattle.quel_network.specs.Sorts.{User};
ghost use Rattle.stage_parse.specs.Arriving.{CameAs};
ghost use Rattle.stage_parse.specs.Counted.{IsCounted};
ghost use Rattle.stage_parse.specs.Parsing.{HasParsed, IsBad, stands};
ghost use Rattle.stage_parse.specs.Standing.{IsHanded, MayComeOf, of_base};
ghost use Rattle.stage_parse.specs.declared.at.At.TheVariants.{Parsing, Passing};

use crate::arriving::{FromLeft, FromRight, from_left, from_right};
use crate::at::At;
use crate::counted::Counted;
use crate::following::{give_end, give_judged, pass};
use crate::judging::judge;
use crate::refusing::{message_for, refused_by};
use crate::walk::Walk;
use base_trait::{Base, BaseFault};
use calculus::refusals::SYNTAX;
use calculus::{Name, Refusal, Statement};
use fault_io::{Shelf, Sink, Source};
use frame_codec::Frame;
use memory::OutOfMemory;
use message_codec::{Came, Gathered, Outgoing, quit_message};
use net_core::{Room, Stage, TakeFault, Want, WorkFault};
use quel_check::RangeTable;
use quel_parse::ParseFault;
use std::alloc::Global;

/// The parser, for the statements of one user: it reads each batch statement by statement, settles what
/// its range variables range over, refuses what can't be carried out, and hands on the tree of what can.
/// What comes back of it is passed on, with the line of the statement where that is refused.
pub struct Parser {
    user: Name,
    ranges: RangeTable,
    at: At,
    walk: Walk,
    got_left: Gathered,
    got_right: Gathered,
    out_left: Outgoing,
    out_right: Outgoing,
}

impl Drop for Parser {
    fn drop(self) {
        let Self {
            user: _,
            ranges: _,
            at: _,
            walk: _,
            got_left: _,
            got_right: _,
            out_left: _,
            out_right: _,
        } = self;
    }
}

/// The fault of a call of the database, as one of a piece of work.
fn of_base(fault: BaseFault) -> WorkFault
    ensures { result ≡ of_base fault }
{
    match fault {
        BaseFault::Disk => WorkFault::Disk,
        BaseFault::Damaged { file, page } => WorkFault::Damaged { file, page },
        BaseFault::OutOfMemory => WorkFault::OutOfMemory,
    }
}

impl Parser {
    /// The parser for a user's statements, before the first batch: no variable ranges over anything. It
    /// serves each user of this name, however texts are read, since the grammar allows one reading alone.
    /// Takes no memory.
    pub fn new(alloc: Global, user: Name) -> Parser
        ensures state { ⟦<Parser as Stage>⟧.state result ≡ quiet_at (idle2 []) }
        ensures serves { (who : User) → who.asker ≡ asker_of user → ⟦<Parser as Stage>⟧.serves result who }
        ensures place { ⟦<Parser as Stage>⟧.place result ≡ 2 }
        ensures heard { ⟦<Parser as Stage>⟧.heard result ≡ 0 }
    {
        Parser {
            user,
            ranges: RangeTable::new(alloc),
            at: At::Idle,
            walk: Walk::none(alloc),
            got_left: Gathered::new(alloc),
            got_right: Gathered::new(alloc),
            out_left: Outgoing::new(alloc),
            out_right: Outgoing::new(alloc),
        }
    }

    /// Takes a frame from the left: of a batch, or the end of all.
    fn take_left(&mut self, alloc: Global, frame: Frame) -> Result<(), TakeFault>
        requires { want (stands self.old) ≡ take_left }
        ensures taken { (who : User) → OnOk result (Taken (quel who) (stands self.old) frame (stands self.new)) }
        ensures unlawful { (who : User) → IsErrOf result TakeFault.Unlawful → MayNotTake (quel who) (stands self.old) frame }
        ensures kept { OnErr result (stands self.new ≡ stands self.old) }
        ensures user { self.new.user ≡ self.old.user }
    {
        let came = self.got_left.read(alloc, &frame)?;
        match came {
            Came::Part => {
                self.got_left.push(frame)?;
                Ok(())
            }
            Came::Whole(message) => match from_left(message) {
                FromLeft::Text(text) => {
                    self.walk = Walk::start(text.into_items());
                    self.at = At::Parsing;
                    self.got_left.clear();
                    Ok(())
                }
                FromLeft::Quit => {
                    self.out_right.put(quit_message(alloc))?;
                    self.at = At::Ended;
                    self.got_left.clear();
                    Ok(())
                }
                FromLeft::Strange => Err(TakeFault::Unlawful),
            },
            Came::Unlawful => Err(TakeFault::Unlawful),
        }
    }

    /// Takes the message whose last frame this is: it is passed on as it came, a refusal with the line of
    /// the statement; an end of tables is kept.
    fn take_reply(
        &mut self,
        alloc: Global,
        frame: Frame,
        line: u32,
        reply: FromRight,
    ) -> Result<(), TakeFault>
        requires wants { want (stands self.old) ≡ take_right }
        requires line { self.old.at ≡ Passing line }
        requires came { CameAs self.old.got_right frame reply }
        ensures taken { (who : User) → OnOk result (Taken (quel who) (stands self.old) frame (stands self.new)) }
        ensures unlawful { (who : User) → IsErrOf result TakeFault.Unlawful → MayNotTake (quel who) (stands self.old) frame }
        ensures kept { OnErr result (stands self.new ≡ stands self.old) }
        ensures user { self.new.user ≡ self.old.user }
    {
        match reply {
            FromRight::Shown => {
                pass(alloc, &mut self.got_right, &mut self.out_left, frame)?;
                Ok(())
            }
            FromRight::Done => {
                pass(alloc, &mut self.got_right, &mut self.out_left, frame)?;
                self.at = At::Parsing;
                Ok(())
            }
            FromRight::Refused(refusal) => {
                let lined = Refusal {
                    code: refusal.code,
                    line,
                    row: refusal.row,
                };
                let message = message_for(alloc, lined)?;
                self.out_left.put(message)?;
                self.at = At::Parsing;
                self.got_right.clear();
                Ok(())
            }
            FromRight::End => {
                self.at = At::Parsing;
                self.got_right.clear();
                Ok(())
            }
            FromRight::Strange => Err(TakeFault::Unlawful),
        }
    }

    /// Takes a frame from the right: of what the statement of this line is answered.
    fn take_right(&mut self, alloc: Global, frame: Frame, line: u32) -> Result<(), TakeFault>
        requires wants { want (stands self.old) ≡ take_right }
        requires line { self.old.at ≡ Passing line }
        ensures taken { (who : User) → OnOk result (Taken (quel who) (stands self.old) frame (stands self.new)) }
        ensures unlawful { (who : User) → IsErrOf result TakeFault.Unlawful → MayNotTake (quel who) (stands self.old) frame }
        ensures kept { OnErr result (stands self.new ≡ stands self.old) }
        ensures user { self.new.user ≡ self.old.user }
    {
        let came = self.got_right.read(alloc, &frame)?;
        match came {
            Came::Part => {
                self.got_right.push(frame)?;
                Ok(())
            }
            Came::Whole(message) => {
                let reply = from_right(&message);
                drop(message);
                self.take_reply(alloc, frame, line, reply)
            }
            Came::Unlawful => Err(TakeFault::Unlawful),
        }
    }

    /// Nothing is left of the batch: its end is given.
    fn end<B: Base>(&mut self, alloc: Global, base: &mut B) -> Result<(), BaseFault>
        requires parsing { self.old.at ≡ Parsing }
        requires over { next_at self.old.walk.text self.old.walk.from ≡ Nothing }
        ensures parsed { (who : User) → OnOk result (HasParsed (quel who) (stands self.old) (stands self.new) (B.database base.old)) }
        ensures handed { OnOk result (IsHanded self.new.at (B.schema base.new) (B.database base.new)) }
        ensures user { self.new.user ≡ self.old.user }
        ensures kept { B.database base.new ≡ B.database base.old }
        ensures asked { (b : B) → B.asked b base.old → B.asked b base.new }
        ensures cause { HasCause (B.database base.old) (B.faults base.old) (B.faults base.new) result }
    {
        give_end(
            alloc,
            base,
            &mut self.at,
            &mut self.walk,
            &mut self.out_left,
        )
    }

    /// No statement is next in the batch: it is refused at this line, and its end is given.
    fn refuse<B: Base>(&mut self, alloc: Global, base: &mut B, line: u32) -> Result<(), BaseFault>
        requires parsing { self.old.at ≡ Parsing }
        requires bad { IsBad self.old.walk line }
        ensures parsed { (who : User) → OnOk result (HasParsed (quel who) (stands self.old) (stands self.new) (B.database base.old)) }
        ensures handed { OnOk result (IsHanded self.new.at (B.schema base.new) (B.database base.new)) }
        ensures user { self.new.user ≡ self.old.user }
        ensures kept { B.database base.new ≡ B.database base.old }
        ensures asked { (b : B) → B.asked b base.old → B.asked b base.new }
        ensures cause { HasCause (B.database base.old) (B.faults base.old) (B.faults base.new) result }
    {
        let message = refused_by(alloc, SYNTAX, line)?;
        self.out_left.put(message)?;
        give_end(
            alloc,
            base,
            &mut self.at,
            &mut self.walk,
            &mut self.out_left,
        )
    }

    /// This statement is next, which begins there and ends here.
    fn settle<B: Base>(
        &mut self,
        alloc: Global,
        base: &mut B,
        s: &Statement,
        first: Counted,
        end: usize,
    ) -> Result<(), BaseFault>
        requires parsing { self.old.at ≡ Parsing }
        requires read { next_at self.old.walk.text self.old.walk.from ≡ Read s.now end }
        requires counted { IsCounted self.old.walk.text first }
        requires place { first.place ≡ first_offset self.old.walk.text self.old.walk.from }
        ensures parsed { (who : User) → who.asker ≡ asker_of self.old.user
            → OnOk result (HasParsed (quel who) (stands self.old) (stands self.new) (B.database base.old)) }
        ensures handed { OnOk result (IsHanded self.new.at (B.schema base.new) (B.database base.new)) }
        ensures user { self.new.user ≡ self.old.user }
        ensures kept { B.database base.new ≡ B.database base.old }
        ensures asked { (b : B) → B.asked b base.old → B.asked b base.new }
        ensures cause { HasCause (B.database base.old) (B.faults base.old) (B.faults base.new) result }
    {
        let line = self.walk.line(first);
        let judged = judge(alloc, base, &mut self.ranges, &self.user, s, line)?;
        give_judged(
            base,
            &mut self.at,
            &mut self.out_left,
            &mut self.out_right,
            judged,
            line,
        )?;
        self.walk.go_on(first, end);
        Ok(())
    }

    /// What is next in the batch is settled.
    fn parse<B: Base>(&mut self, alloc: Global, base: &mut B) -> Result<(), BaseFault>
        requires { self.old.at ≡ Parsing }
        ensures parsed { (who : User) → who.asker ≡ asker_of self.old.user
            → OnOk result (HasParsed (quel who) (stands self.old) (stands self.new) (B.database base.old)) }
        ensures handed { OnOk result (IsHanded self.new.at (B.schema base.new) (B.database base.new)) }
        ensures user { self.new.user ≡ self.old.user }
        ensures kept { B.database base.new ≡ B.database base.old }
        ensures asked { (b : B) → B.asked b base.old → B.asked b base.new }
        ensures cause { HasCause (B.database base.old) (B.faults base.old) (B.faults base.new) result }
    {
        let first = self.walk.first(alloc)?;
        match self.walk.next(alloc) {
            Ok(None) => self.end(alloc, base),
            Ok(Some((s, end))) => self.settle(alloc, base, &s, first, end),
            Err(ParseFault::Syntax { line, at: _ }) => self.refuse(alloc, base, line),
            Err(ParseFault::OutOfMemory) => Err(BaseFault::OutOfMemory),
        }
    }

    /// The same, as a piece of work.
    fn parse_on<B: Base>(&mut self, alloc: Global, base: &mut B) -> Result<(), WorkFault>
        requires { want (stands self.old) ≡ work }
        ensures parsed { (who : User) → who.asker ≡ asker_of self.old.user
            → OnOk result (HasParsed (quel who) (stands self.old) (stands self.new) (B.database base.old)) }
        ensures handed { OnOk result (IsHanded self.new.at (B.schema base.new) (B.database base.new)) }
        ensures user { self.new.user ≡ self.old.user }
        ensures kept { B.database base.new ≡ B.database base.old }
        ensures asked { (b : B) → B.asked b base.old → B.asked b base.new }
        ensures later { B.faults base.old ≤ B.faults base.new }
        ensures counted { OnOk result (B.faults base.new ≡ B.faults base.old) }
        ensures cause { IfErr result (MayComeOf (B.database base.old) (B.faults base.old) (B.faults base.new)) }
    {
        match self.parse(alloc, base) {
            Ok(()) => Ok(()),
            Err(fault) => Err(of_base(fault)),
        }
    }
}

impl Stage for Parser {
    ghost use Rattle.std.specs.Prelude.{◌≡◌};
    ghost use Rattle.calculus.specs.Who.{asker_of};
    ghost use Rattle.stage_parse.specs.Parsing.{stands};

    ghost state = { λ s. stands s };

    ghost serves = { λ s who. who.asker ≡ asker_of s.user };

    ghost place = { λ _. 2 };

    ghost heard = { λ _. 0 };

    fn number(&self) -> u8 {
        2
    }

    fn want(&self) -> Want {
        if !self.out_left.is_empty() {
            return Want::GiveLeft;
        }
        if !self.out_right.is_empty() {
            return Want::GiveRight;
        }
        match self.at {
            At::Idle => Want::TakeLeft,
            At::Parsing => Want::Work,
            At::Passing(_) => Want::TakeRight,
            At::Ended => Want::Ended,
        }
    }

    fn take(&mut self, alloc: Global, frame: Frame) -> Result<(), TakeFault> {
        match self.at {
            At::Idle => self.take_left(alloc, frame),
            At::Passing(line) => self.take_right(alloc, frame, line),
            At::Parsing => unreachable!(),
            At::Ended => unreachable!(),
        }
    }

    fn give(&mut self, _alloc: Global) -> Result<Frame, OutOfMemory> {
        if self.out_left.is_empty() {
            self.out_right.give()
        } else {
            self.out_left.give()
        }
    }

    fn work<B: Base, H: Shelf, S: Source, K: Sink>(
        &mut self,
        alloc: Global,
        room: &mut Room<B, H, S, K>,
    ) -> Result<(), WorkFault> {
        self.parse_on(alloc, &mut room.base)
    }
}
