// How all stands before the first turn that is shown.

ghost use Rattle.std.specs.Prelude.{◌≡◌, ◌++◌, IfOk, OnOk, Some, codes, map, slice_get, ℕ};
ghost use Rattle.lrc_labels.specs.Reading.{label_seen};
ghost use Rattle.lrc_protocol.specs.Run.{Logged, World};
ghost use Rattle.lrc_replay.specs.Acts.{Plan as AnyPlan};
ghost use Rattle.lrc_replay.specs.Replays.{IsReplay};
ghost use Rattle.lrc_states.specs.Members.{first_members, flying_list, listed_wait, waits_list};
ghost use Rattle.lrc_states.specs.Players.{IsPlayer};
ghost use Rattle.lrc_states.specs.States.{first_line, first_state, flight_list, setting_members, states_list, written_list};

use crate::members::{push_listed_parts, push_wait_of};
use crate::player::Player;
use crate::told::Telling;
use crate::{push_comma, push_labels, push_listed, push_notes};
use lrc_labels::label::Label;
use lrc_page::Size;
use lrc_state_text::Known;
use lrc_text::push_number;
use std::alloc::AllocError;

impl Player<'_> {
    /// Returns the line for the state before the first turn that is shown.
    pub(crate) fn first_line(
        &self,
        telling: Telling,
        size: Size,
        labels: &[Label<'_>],
    ) -> Result<Vec<u8>, AllocError>
        ensures { (plan : AnyPlan) (world : World) (turns : ℕ) → IsPlayer plan world turns self.now
            → IfOk result (λ line. line.items
            ≡ first_line plan telling size (map label_seen labels.now) world) }
    {
        let mut line = Vec::new(self.alloc);
        self.push_setting(&mut line, size)?;
        line.extend_from_slice(b",\"labels\":[")?;
        push_labels(&mut line, labels)?;
        line.extend_from_slice(b"],\"flight\":[")?;
        self.push_flight(&mut line)?;
        line.extend_from_slice(b"],\"states\":[")?;
        self.push_states(&mut line)?;
        line.extend_from_slice(b"],\"written\":[")?;
        self.push_written(&mut line)?;
        line.extend_from_slice(b"]")?;
        self.push_first_members(&mut line, telling)?;
        line.extend_from_slice(b"}\n")?;
        Ok(line)
    }

    fn push_setting(&self, line: &mut Vec<u8>, size: Size) -> Result<(), AllocError>
        ensures { (plan : AnyPlan) (world : World) (turns : ℕ) → IsPlayer plan world turns self.now
            → OnOk result (line.new.items ≡ line.old.items ++ setting_members plan size) }
    {
        push_number(line, b"{\"nodes\":", u64::from(self.plan.nodes))?;
        push_number(line, b",\"words\":", u64::from(self.plan.code.words()))?;
        push_number(
            line,
            b",\"locks\":",
            u64::from(self.plan.code.program().locks()),
        )?;
        push_number(line, b",\"page\":", u64::from(size.words()))
    }

    fn push_flight(&self, line: &mut Vec<u8>) -> Result<(), AllocError>
        ensures { (plan : AnyPlan) (world : World) (turns : ℕ) → IsPlayer plan world turns self.now
            → OnOk result (line.new.items ≡ line.old.items ++ flight_list world) }
    {
        for place in 0..self.replay.flight.len() {
            push_listed(self.alloc, line, place, &self.replay.flight[place])?;
        }
        Ok(())
    }

    fn push_states(&self, line: &mut Vec<u8>) -> Result<(), AllocError>
        ensures { (plan : AnyPlan) (world : World) (turns : ℕ) → IsPlayer plan world turns self.now
            → OnOk result (line.new.items ≡ line.old.items ++ states_list plan world) }
    {
        for place in 0..self.replay.nodes.len() {
            self.push_first(line, place)?;
        }
        Ok(())
    }

    // Adds the state of the node at this place, of which nothing was told before.
    fn push_first(&self, line: &mut Vec<u8>, place: usize) -> Result<(), AllocError>
        ensures { (plan : AnyPlan) (world : World) (turns : ℕ) (l : Logged)
            → IsPlayer plan world turns self.now → slice_get world.nodes place ≡ Some l
            → OnOk result (line.new.items ≡ line.old.items ++ first_state plan world.acts place l) }
    {
        let Ok(node) = u8::try_from(place) else {
            return Err(AllocError);
        };
        push_comma(line, place)?;
        self.push_state(line, node, &Known::none(self.alloc))
    }

    fn push_written(&self, line: &mut Vec<u8>) -> Result<(), AllocError>
        ensures { (plan : AnyPlan) (world : World) (turns : ℕ) → IsPlayer plan world turns self.now
            → OnOk result (line.new.items ≡ line.old.items ++ written_list plan world) }
    {
        let notes = self.course.notes(self.alloc)?;
        push_notes(line, &notes)
    }

    // Adds what is not told in words: the parts of the messages in flight, and of what each node waits for.
    #[tactic(auto, unfolding(crate::specs::Members::first_members))]
    fn push_first_members(&self, line: &mut Vec<u8>, telling: Telling) -> Result<(), AllocError>
        ensures { (world : World) → IsReplay self.now.replay world
            → OnOk result (line.new.items ≡ line.old.items ++ first_members telling world) }
    {
        match telling {
            Telling::InWords => Ok(()),
            Telling::AlsoInMembers => self.push_flying_and_waits(line),
        }
    }

    fn push_flying_and_waits(&self, line: &mut Vec<u8>) -> Result<(), AllocError>
        ensures { (world : World) → IsReplay self.now.replay world
            → OnOk result (line.new.items ≡ line.old.items ++ (codes ",\"flying\":["
            ++ flying_list world ++ codes "],\"stand\":[" ++ waits_list world ++ codes "]")) }
    {
        line.extend_from_slice(b",\"flying\":[")?;
        self.push_flying(line)?;
        line.extend_from_slice(b"],\"stand\":[")?;
        self.push_waits(line)?;
        line.extend_from_slice(b"]")
    }

    fn push_flying(&self, line: &mut Vec<u8>) -> Result<(), AllocError>
        ensures { (world : World) → IsReplay self.now.replay world
            → OnOk result (line.new.items ≡ line.old.items ++ flying_list world) }
    {
        for place in 0..self.replay.flight.len() {
            push_listed_parts(line, place, &self.replay.flight[place])?;
        }
        Ok(())
    }

    fn push_waits(&self, line: &mut Vec<u8>) -> Result<(), AllocError>
        ensures { (world : World) → IsReplay self.now.replay world
            → OnOk result (line.new.items ≡ line.old.items ++ waits_list world) }
    {
        for place in 0..self.replay.nodes.len() {
            self.push_listed_wait(line, place)?;
        }
        Ok(())
    }

    // Adds what the node at this place waits for.
    fn push_listed_wait(&self, line: &mut Vec<u8>, place: usize) -> Result<(), AllocError>
        ensures { (world : World) (l : Logged) → IsReplay self.now.replay world
            → slice_get world.nodes place ≡ Some l
            → OnOk result (line.new.items ≡ line.old.items ++ listed_wait place l) }
    {
        let state = self.state_of(place)?;
        push_comma(line, place)?;
        push_wait_of(line, state)
    }
}
