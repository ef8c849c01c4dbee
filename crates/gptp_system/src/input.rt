//! What a system can be given, and the step that it takes then.

ghost use Rattle.std.specs.Prelude.{◌≡◌};

use crate::answer::Answer;
use crate::sending::{Outbox, Sent};
use crate::state::State;
use crate::timers_changed::{
    TimersChanged, asking_touches, heard_touches, is_used, selected_if, timed_if,
};
use gptp_messages::{Message, decode};
use gptp_setup::Timer;

/// What a system is given. Ports are named by their number, from 1.
#[derive(Clone, Copy, Debug)]
pub enum Input<'a> {
    /// The link of a port comes up: the port measures it from the beginning, and asks at once.
    PortUp(u8),
    /// The link of a port goes down: its timers stop, and it takes no part.
    PortDown(u8),
    /// A port hears a frame.
    Frame {
        /// The number of the port.
        port: u8,
        /// The octets of the frame.
        octets: &'a [u8],
    },
    /// A port hears a message that was sent, as it hears a frame of its octets. None of them is written.
    Sent {
        /// The number of the port that hears it.
        port: u8,
        /// The message.
        message: &'a Sent,
    },
    /// A timer expires.
    Expires(Timer),
    /// The priority1 of the system becomes this (IEEE 802.1AS-2020, 8.6.2.1).
    Priority(u8),
}

/// What a step of a system came to, besides what it sends.
#[derive(Clone, Copy, Debug)]
pub struct Stepped {
    /// What became of a frame, or of a message that was sent. Other inputs have no answer, and Used stands here.
    pub answer: Answer,
    /// The timers that the step can have set or stopped.
    pub touched: TimersChanged,
}

/// A step by an input that has no answer.
fn unanswered(touched: TimersChanged) -> Stepped
    ensures { result.touched ≡ touched }
{
    Stepped {
        answer: Answer::Used,
        touched,
    }
}

impl State {
    ghost use Rattle.std.specs.Prelude.{◌≡◌, ◌≢◌, true, []};
    ghost use Rattle.gptp_receipt.specs.declared.held.Held.TheVariants.{Disabled};
    ghost use Rattle.gptp_system.specs.Facts.{AreHeld, IsAtRest, IsSystem};
    ghost use Rattle.gptp_system.specs.Input.{given, Frame, IsTimely, Steps};
    ghost use Rattle.gptp_messages.specs.Grammar.{Written};
    ghost use Rattle.gptp_setup.specs.Intervals.{IsMoment};
    ghost use Rattle.gptp_system.specs.Ready.{IsReady, state_of};
    ghost use Rattle.gptp_system.specs.Sends.{message_sent};
    ghost use Rattle.gptp_system.specs.State.{held_at, is_capable_at};
    ghost use Rattle.gptp_system.specs.Steps.{Expires, HearsFrame, HearsMessage, HasPortNumber, IsDue, IsTimerOf};
    ghost use Rattle.gptp_system.specs.TimersChanged.{MessageTouches, timer_touches, Touches};

    /// A port hears a message.
    fn hear(&mut self, port: u8, message: &Message<'_>, now: u64, outbox: &mut Outbox) -> Stepped
        requires ready { IsReady (state_of self.old) }
        requires moment { IsMoment now }
        requires port { HasPortNumber (state_of self.old) port }
        requires shown { is_capable_at (state_of self.old) port ≡ true → held_at (state_of self.old) port ≢ Disabled }
        requires held { AreHeld (state_of self.old) }
        requires rest { IsAtRest (state_of self.old) }
        requires empty { outbox.old.items ≡ [] }
        ensures step { HearsMessage port message.now now (state_of self.old)
            (state_of self.new) outbox.new.items result.answer }
        ensures touched { MessageTouches port message.now now (state_of self.old)
            (state_of self.new) result.answer result.touched }
        ensures ready { IsReady (state_of self.new) }
    {
        match message {
            Message::Sync { head } => Stepped {
                answer: self.hear_sync(port, head, now),
                touched: TimersChanged::Nothing,
            },
            Message::PdelayReq { head } => Stepped {
                answer: self.hear_request(port, head, now),
                touched: TimersChanged::One(Timer::Respond(port)),
            },
            Message::PdelayResp(response) => Stepped {
                answer: self.hear_response(port, response, now),
                touched: TimersChanged::Nothing,
            },
            Message::FollowUp(follow_up) => {
                let answer = self.hear_follow_up(port, follow_up, now);
                let touched = timed_if(is_used(answer));
                Stepped { answer, touched }
            }
            Message::PdelayRespFollowUp(follow_up) => {
                let (turned, answer) = self.hear_response_follow_up(port, follow_up, now, outbox);
                let touched = selected_if(turned);
                Stepped { answer, touched }
            }
            Message::Announce(announce) => {
                let (again, answer) = self.hear_announce(port, announce, now, outbox);
                let touched = heard_touches(again, answer, port);
                Stepped { answer, touched }
            }
        }
    }

    /// A port hears a frame.
    fn hear_frame(&mut self, port: u8, frame: &[u8], now: u64, outbox: &mut Outbox) -> Stepped
        requires ready { IsReady (state_of self.old) }
        requires moment { IsMoment now }
        requires port { HasPortNumber (state_of self.old) port }
        requires shown { is_capable_at (state_of self.old) port ≡ true → held_at (state_of self.old) port ≢ Disabled }
        requires held { AreHeld (state_of self.old) }
        requires rest { IsAtRest (state_of self.old) }
        requires empty { outbox.old.items ≡ [] }
        ensures step { HearsFrame port frame.now now (state_of self.old)
            (state_of self.new) outbox.new.items result.answer }
        ensures touches { Touches (Frame port frame.now) result.touched (state_of self.old) (state_of self.new) }
        ensures ready { IsReady (state_of self.new) }
    {
        match decode(frame) {
            Ok(message) => self.hear(port, &message, now, outbox),
            Err(refused) => Stepped {
                answer: Answer::Refused(refused),
                touched: TimersChanged::Nothing,
            },
        }
    }

    /// A port hears what another one sent.
    fn hear_message(&mut self, port: u8, message: &Sent, now: u64, outbox: &mut Outbox) -> Stepped
        requires ready { IsReady (state_of self.old) }
        requires moment { IsMoment now }
        requires port { HasPortNumber (state_of self.old) port }
        requires empty { outbox.old.items ≡ [] }
        ensures step { HearsMessage port (message_sent message.now) now (state_of self.old)
            (state_of self.new) outbox.new.items result.answer }
        ensures touched { MessageTouches port (message_sent message.now) now (state_of self.old)
            (state_of self.new) result.answer result.touched }
        ensures ready { IsReady (state_of self.new) }
    {
        match message {
            Sent::Sync { head } => Stepped {
                answer: self.hear_sync(port, head, now),
                touched: TimersChanged::Nothing,
            },
            Sent::PdelayReq { head } => Stepped {
                answer: self.hear_request(port, head, now),
                touched: TimersChanged::One(Timer::Respond(port)),
            },
            Sent::PdelayResp(response) => Stepped {
                answer: self.hear_response(port, response, now),
                touched: TimersChanged::Nothing,
            },
            Sent::FollowUp(follow_up) => {
                let answer = self.hear_follow_up(port, follow_up, now);
                let touched = timed_if(is_used(answer));
                Stepped { answer, touched }
            }
            Sent::PdelayRespFollowUp(follow_up) => {
                let (turned, answer) = self.hear_response_follow_up(port, follow_up, now, outbox);
                let touched = selected_if(turned);
                Stepped { answer, touched }
            }
        }
    }

    /// A port hears a message that was sent, as a frame of its octets is heard.
    fn hear_sent(&mut self, port: u8, message: &Sent, now: u64, outbox: &mut Outbox) -> Stepped
        requires ready { IsReady (state_of self.old) }
        requires moment { IsMoment now }
        requires port { HasPortNumber (state_of self.old) port }
        requires empty { outbox.old.items ≡ [] }
        ensures step { HearsFrame port (Written (message_sent message.now)) now (state_of self.old)
            (state_of self.new) outbox.new.items result.answer }
        ensures touches { Touches (Frame port (Written (message_sent message.now))) result.touched
            (state_of self.old) (state_of self.new) }
        ensures ready { IsReady (state_of self.new) }
    {
        message.fits();
        self.hear_message(port, message, now, outbox)
    }

    /// A timer runs out.
    fn expire(&mut self, timer: Timer, now: u64, outbox: &mut Outbox) -> TimersChanged
        requires ready { IsReady (state_of self.old) }
        requires moment { IsMoment now }
        requires timer { IsTimerOf (state_of self.old) timer }
        requires due { IsDue (state_of self.old) timer now }
        requires empty { outbox.old.items ≡ [] }
        ensures step { Expires timer now (state_of self.old) (state_of self.new) outbox.new.items }
        ensures touched { result ≡ timer_touches timer (state_of self.old) }
        ensures ready { IsReady (state_of self.new) }
    {
        match timer {
            Timer::Announce(port) => self.on_announce_timer(port, now, outbox),
            Timer::Age(port) => {
                self.on_age_timer(port, now, outbox);
                return TimersChanged::Selected;
            }
            Timer::Pdelay(port) => {
                return asking_touches(self.on_pdelay_timer(port, now, outbox), port);
            }
            Timer::Respond(port) => self.on_respond_timer(port, now, outbox),
            Timer::Sync => self.on_sync_timer(now, outbox),
            Timer::Relay => self.on_relay_timer(now, outbox),
            Timer::Lapse => {
                self.on_lapse_timer(now, outbox);
                return TimersChanged::Selected;
            }
        }
        TimersChanged::One(timer)
    }

    /// A system between its calls is given an input.
    pub(crate) fn step(&mut self, input: Input<'_>, now: u64, outbox: &mut Outbox) -> Stepped
        requires system { IsSystem (state_of self.old) }
        requires moment { IsMoment now }
        requires timely { IsTimely (state_of self.old) now (given input) }
        requires empty { outbox.old.items ≡ [] }
        ensures step { Steps (given input.entry) now (state_of self.old)
            (state_of self.new) outbox.new.items result.answer }
        ensures touches { Touches (given input.entry) result.touched (state_of self.old) (state_of self.new) }
        ensures ready { IsReady (state_of self.new) }
    {
        match input {
            Input::PortUp(port) => self.port_up(port, now, outbox),
            Input::PortDown(port) => self.port_down(port, now, outbox),
            Input::Frame { port, octets } => return self.hear_frame(port, octets, now, outbox),
            Input::Sent { port, message } => return self.hear_sent(port, message, now, outbox),
            Input::Expires(timer) => return unanswered(self.expire(timer, now, outbox)),
            Input::Priority(value) => self.set_priority(value, now, outbox),
        }
        unanswered(TimersChanged::All)
    }
}
