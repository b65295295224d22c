//! The whole route server: one call for one event in bytes.
#![tactic(auto)]

use frame::settings::Settings;
use outbox::{Outbox, Output};
use policy_tables::Policies;
use rib::Rib;
use server::Server;
use sessions::Sessions;

mod closing;
mod connecting;
mod handling;
mod receiving;
mod stepping;
mod texts;
mod ticking;

/// The settings in force, the sessions, the server behind them, where frames go, and memory for the next policy text.
#[derive(Drop)]
pub struct Speaker<R: Rib, O: Output> {
    settings: Settings,
    sessions: Sessions,
    server: Server<R, Policies>,
    outbox: Outbox<O>,
    spare: Policies,
}
