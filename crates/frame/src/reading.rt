//! Reading frames.
ghost use Rattle.std.specs.Prelude.{◌≡◌, ◌≤◌, length};
ghost use Rattle.frame.specs.Frame.{first, next, meant, happening, of_peer, before_settings, under_settings};
ghost use Rattle.frame.specs.Laws.{Laws};
ghost use Rattle.frame.specs.Settings.{exchange};

use crate::event::{Defect, Event, Reading, Refusal, Unread, Whole};
use crate::kind::{Frame, Kind, first_frame};
use crate::settings::content::settings_at;
use crate::settings::{MAX_PEERS, Settings};

/// What the bytes at hand begin with, before settings: only these are taken.
#[tactic(auto, using(crate::proofs::Unread::unread_outcome))]
pub fn read_settings(bytes: &[u8]) -> Reading<Settings>
    ensures { meant exchange result ≡ first bytes.now }
{
    before_settings(first_frame(bytes, Refusal::NoSettings)?)
}

/// What the bytes at hand begin with, under settings: all but these is taken.
#[tactic(auto, using(crate::proofs::Unread::unread_outcome))]
pub fn read_event<'a>(settings: &Settings, bytes: &'a [u8]) -> Reading<Event<'a>>
    ensures { meant happening result ≡ next (exchange settings.now) bytes.now }
{
    under_settings(settings, first_frame(bytes, Refusal::TextTooLong)?)
}

/// It does not matter how an input is cut into pieces, and a frame is read by its own bytes alone.
pub fn reading_laws()
    ensures { Laws }
{}

/// A whole frame before settings.
fn before_settings(frame: Frame<'_>) -> Reading<Settings>
    ensures { meant exchange result ≡ before_settings frame.entry.kind frame.entry.bytes.now }
{
    let bytes = frame.bytes;
    let size = bytes.len();
    let refusal = match frame.kind {
        Kind::Session if bytes[2] > 1 => return Err(Unread::from(Defect::UnknownState)),
        Kind::Settings if usize::from(bytes[1]) > MAX_PEERS => Refusal::TooManyPeers,
        Kind::Settings => {
            let content = settings_at(bytes);
            return Ok(Whole { content, size });
        }
        Kind::Message | Kind::Session | Kind::Tick | Kind::PolicyText => Refusal::NoSettings,
    };
    Err(Unread::Refused { refusal, size })
}

/// A whole frame of the peer that its second byte names.
fn of_peer<'a>(settings: &Settings, bytes: &'a [u8], event: Event<'a>) -> Reading<Event<'a>>
    requires { 2 ≤ length bytes.now }
    ensures { meant happening result ≡ of_peer (exchange settings.now) bytes.now (happening event.entry) }
{
    if bytes[1] < settings.peer_count() {
        Ok(Whole {
            content: event,
            size: bytes.len(),
        })
    } else {
        Err(Unread::from(Defect::UnknownPeer))
    }
}

/// A whole frame under settings.
fn under_settings<'a>(settings: &Settings, frame: Frame<'a>) -> Reading<Event<'a>>
    ensures { meant happening result ≡ under_settings (exchange settings.now) frame.entry.kind frame.entry.bytes.now }
{
    let bytes = frame.bytes;
    let size = bytes.len();
    let content = match frame.kind {
        Kind::Message => {
            let peer = bytes[1];
            let event = Event::Message {
                peer,
                bytes: &bytes[4..],
            };
            return of_peer(settings, bytes, event);
        }
        Kind::Session => {
            return match bytes[2] {
                0 => of_peer(settings, bytes, Event::Down { peer: bytes[1] }),
                1 => of_peer(settings, bytes, Event::Up { peer: bytes[1] }),
                _ => Err(Unread::from(Defect::UnknownState)),
            };
        }
        Kind::Tick => Event::Tick,
        Kind::PolicyText => Event::PolicyText { text: &bytes[5..] },
        Kind::Settings => {
            let refusal = Refusal::SettingsAgain;
            return Err(Unread::Refused { refusal, size });
        }
    };
    Ok(Whole { content, size })
}
