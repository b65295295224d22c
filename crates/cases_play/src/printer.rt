//! Printing what peers are told.
use prefix::Prefix;
use route::Route;
use std::io;
use telling::Sink;

/// Where updates go that only lead to the last event of a case.
#[derive(Clone, Copy)]
pub struct Silence;

impl Sink for Silence {
    ghost sends = { λ s u t. Unit {0} };

    fn send(&mut self, peer: u8, prefix: Prefix, route: Option<&Route>) {}
}

/// Prints the updates of a case's last event.
#[derive(Drop)]
pub struct Printer<'a> {
    rt: &'a HostRuntime,
    case: &'static str,
    /// Whether all that was told could be written; none where nobody was told anything.
    told: Option<io::Result<()>>,
}

impl Sink for Printer<'_> {
    ghost sends = { λ s u t. Unit {0} };

    fn send(&mut self, peer: u8, prefix: Prefix, route: Option<&Route>) {
        let shown = self.show(peer, prefix, route);
        if !matches!(self.told, Some(Err(_))) {
            self.told = Some(shown);
        }
    }
}

impl<'a> Printer<'a> {
    pub fn new(rt: &'a HostRuntime, case: &'static str) -> Printer<'a> {
        Printer {
            rt,
            case,
            told: None,
        }
    }

    /// Says so where nobody was told anything, and fails if something could not be written.
    pub fn end(self) -> io::Result<()> {
        let Printer { rt, case, told } = self;
        match told {
            Some(told) => told.map_err(|_| io::Error::other("a line could not be written")),
            None => println!(rt; "{case}: nobody is told anything"),
        }
    }

    fn show(&self, peer: u8, prefix: Prefix, route: Option<&Route>) -> io::Result<()> {
        let rt = self.rt;
        let case = self.case;
        let Some(route) = route else {
            return println!(rt; "{case}: peer {peer} is told that there is none of {prefix}");
        };
        print!(rt; "{case}: peer {peer} is told {prefix} by")?;
        for asn in route.path.asns() {
            print!(rt; " {asn}")?;
        }
        println!(rt; "")
    }
}
