//! One message after another.

ghost use Rattle.std.specs.Prelude.{◌≡◌, ◌++◌, [], true, Ok, Some, None, IfOk, OnOk, length};
ghost use Rattle.bgp_msg.specs.Frames.{framed};
ghost use Rattle.bgp_session.specs.Lives.{agreed_with, next};
ghost use Rattle.bgp_session.specs.Steps.{Adds, ending, greeted, greeting, step};

use crate::Why;
use crate::framing::Headers;
use crate::hearing::Hearing;
use crate::progress::{Local, Progress, Stage};
use acct_types::NoMemory;
use bgp_msg::{
    Agreed, BgpFault, BgpMessage, BgpRefusal, Hello, read_message, write_keepalive,
    write_notification, write_open,
};
use framed_pieces::Listener;
use std::alloc::Global;

const NOTIFICATION: u8 = 3;

// A message that isn't awaited (RFC 4271, 6.6).
const NOT_AWAITED: BgpFault = BgpFault {
    code: 5,
    subcode: 0,
    place: 18,
};

// Ends the life, with a NOTIFICATION where the peer is at fault.
fn shut(progress: Progress, why: Why, hearing: &mut Hearing) -> Result<Progress, NoMemory>
    ensures progress { IfOk result (λ after. after ≡ (ending progress (Some why)).progress) }
    ensures adds { IfOk result (λ after. Adds hearing.old hearing.new (ending progress (Some why))) }
{
    if let Why::Fault(fault) = why {
        write_notification(fault.code, fault.subcode, &mut hearing.replies)?;
    }
    hearing.closed = Some(why);
    Ok(Progress {
        stage: Stage::Closed,
        ..progress
    })
}

fn agreed_with(hello: &Hello) -> Agreed
    ensures { result ≡ agreed_with hello.now }
{
    Agreed {
        four_octets: hello.four_octets,
        path_ids_v4: hello.path_ids_v4,
        path_ids_v6: hello.path_ids_v6,
    }
}

// Answers an OPEN.
fn greet(
    alloc: Global,
    local: Local,
    progress: Progress,
    hello: &Hello,
    hearing: &mut Hearing,
) -> Result<Progress, NoMemory>
    ensures progress { IfOk result (λ after. after ≡ greeted local progress hello.now) }
    ensures replies { OnOk result (hearing.new.replies ≡ hearing.old.replies ++ greeting local hello.now) }
    ensures others { OnOk result (hearing.new ≡ record hearing.old { replies = hearing.new.replies; some = true }) }
{
    write_open(alloc, hello.asn, local.hold, local.id, &mut hearing.replies)?;
    write_keepalive(&mut hearing.replies)?;
    hearing.some = true;
    Ok(Progress {
        stage: progress.stage.next(),
        agreed: agreed_with(hello),
        hold: local.hold.min(hello.hold),
    })
}

// A message that says nothing of what is agreed.
fn proceed(progress: Progress, hearing: &mut Hearing) -> Progress
    ensures progress { result ≡ record progress { stage = next progress.stage } }
    ensures heard { hearing.new ≡ record hearing.old { some = true } }
{
    hearing.some = true;
    Progress {
        stage: progress.stage.next(),
        ..progress
    }
}

// Takes a whole message.
#[tactic(auto, unfolding(crate::specs::Lives::end_at, crate::specs::Lives::reply_to, crate::specs::Lives::update_in, crate::specs::Steps::step, bgp_msg::specs::Frames::framed, bgp_msg::specs::Messages::body_fault))]
fn hear(
    alloc: Global,
    local: Local,
    progress: Progress,
    message: &[u8],
    hearing: &mut Hearing,
) -> Result<Progress, NoMemory>
    requires whole { framed message.now ≡ Ok (Some (length message.now)) }
    requires live { hearing.old.closed ≡ None }
    ensures progress { IfOk result (λ after. after ≡ (step local progress message.now).progress) }
    ensures adds { OnOk result (Adds hearing.old hearing.new (step local progress message.now)) }
{
    let kind = message[18];
    if kind != NOTIFICATION && !progress.stage.fits(kind) {
        return shut(progress, Why::Fault(NOT_AWAITED), hearing);
    }
    match read_message(alloc, message, &progress.agreed) {
        Err(BgpRefusal::NoMemory) => Err(NoMemory),
        Err(BgpRefusal::Fault(fault)) => shut(progress, Why::Fault(fault), hearing),
        Ok(BgpMessage::Notification { code, subcode }) => {
            shut(progress, Why::Notified { code, subcode }, hearing)
        }
        Ok(BgpMessage::Hello(hello)) => greet(alloc, local, progress, &hello, hearing),
        Ok(BgpMessage::Update(update)) => {
            hearing.updates.push(update)?;
            Ok(proceed(progress, hearing))
        }
        Ok(BgpMessage::Keepalive) => {
            write_keepalive(&mut hearing.replies)?;
            Ok(proceed(progress, hearing))
        }
    }
}

impl Listener<Headers> for Hearing {
    ghost use Rattle.bgp_session.specs.Steps.{Gathered, gathered, listening as hears_by_steps};

    ghost State = { Gathered };

    ghost state = { gathered };

    ghost listening = { hears_by_steps };

    fn hear(&mut self, message: &[u8]) -> Result<(), NoMemory> {
        self.progress = hear(self.alloc, self.local, self.progress, message, self)?;
        Ok(())
    }

    fn refuse(&mut self, fault: BgpFault) -> Result<(), NoMemory> {
        self.progress = shut(self.progress, Why::Fault(fault), self)?;
        Ok(())
    }

    fn is_over(&self) -> bool {
        self.closed.is_some()
    }
}
