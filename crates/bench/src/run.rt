// What each command does.
use crate::command::Command;
use crate::fault::Fault;
use crate::output::Printer;
use crate::sizes;
use crate::stations::{Stations, Token};

// The ring that the script has founded, and its newest token.
#[derive(Drop)]
pub struct Ring {
    stations: Stations,
    token: Token,
}

impl Ring {
    pub fn new() -> Ring {
        Ring {
            stations: Stations::new(),
            token: Token::new(),
        }
    }

    // Does what a line asks for.
    pub fn run<R: Print + Eprint>(
        &mut self,
        command: Command,
        out: &mut Printer<R>,
    ) -> Result<(), Fault> {
        match command {
            Command::Nothing => {}
            Command::Found { number, ids } => self.found(number, ids, out),
            Command::Post {
                place,
                service,
                content,
            } => {
                let place = self.place(place)?;
                out.refusal(self.stations.post(place, service, content));
            }
            Command::Turn => {
                self.is_founded()?;
                self.turn(None, out);
            }
            Command::TurnWithout(place) => {
                let place = self.place(place)?;
                self.turn(Some(place), out);
            }
            Command::Arrive { place, frame } => {
                let place = self.place(place)?;
                let written = self.stations.arrive(place, None, frame, out);
                self.renew(written);
            }
            Command::Write(count) => sizes::write(count, out),
        }
        Ok(())
    }

    fn is_founded(&self) -> Result<(), Fault> {
        if self.stations.members() == 0 {
            return Err(Fault::NoRing);
        }
        Ok(())
    }

    // A place that has a station.
    fn place(&self, place: u32) -> Result<usize, Fault> {
        self.is_founded()?;
        let place = place as usize;
        if self.stations.members() <= place {
            return Err(Fault::NoPlace);
        }
        Ok(place)
    }

    fn found<R: Print + Eprint>(&mut self, number: u32, ids: &[u8], out: &mut Printer<R>) {
        match self.stations.found(ids, number) {
            Ok(token) => self.renew(token),
            Err(refusal) => out.refusal(refusal),
        }
    }

    // The newest token to its addressee; nothing reaches the place `without`.
    fn turn<R: Print + Eprint>(&mut self, without: Option<usize>, out: &mut Printer<R>) {
        let token = self.token.as_slice();
        let addressee = self.stations.addressee(token);
        if let Some(place) = addressee
            && addressee != without
        {
            let written = self.stations.arrive(place, without, token, out);
            self.renew(written);
        }
    }

    // A token written becomes the newest.
    fn renew(&mut self, written: Option<Token>) {
        if let Some(token) = written {
            self.token = token;
        }
    }
}
