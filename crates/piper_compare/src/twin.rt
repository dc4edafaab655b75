//! Plays commands on the handles and on the machine, and holds the answers against each other.
ghost use Rattle.std.specs.Prelude.{◌≡◌, ◌⊎◌, None, Some, IfErr, IfOk, IfSome, OnOk};
ghost use Rattle.piper_script.specs.Ended.{IsEndOf};
ghost use Rattle.piper_script.specs.Played.{IsInLimits};

use crate::halt::{Halt, finish};
use crate::hands::{Hands, MOST_OF_ONE_LENGTH, is_open_lend};
use piper_machine::calls::Call;
use piper_script::command::{Command, MOST};
use piper_script::number::number;
use piper_script::parser::parse;
use piper_script::player::Player;
use piper_script::replay::Ended;
use piper_script::reply::Reply;
use piper_script::stop::Stop;
use std::alloc::AllocGlobal;
use std::random::RandomSource;
use std::str;

/// A machine and handles on which the same script is played, and what each answered to the last
/// line.
#[derive(Drop)]
pub struct Twin<H: Drop> {
    player: Player,
    hands: Hands<H>,
    pub machine: Reply,
    pub handles: Reply,
}

/// What came of a line that both answered.
pub enum Compared {
    /// It is no command.
    Silent,
    Alike,
    /// Both refused it.
    Refused,
    Differ(Difference),
}

/// The two differ. It can't be dropped, so no comparison passes over it: it ends by it.
pub struct Difference {
    /// What stopped it from being told, if something did.
    untold: Option<Stop>,
}

impl Difference {
    /// The same, with what stopped it from being told, if something did.
    pub fn told(self, told: Result<(), Stop>) -> Difference
        ensures told { OnOk told (result ≡ self) }
        ensures untold { IfErr told (λ stop. result.untold ≡ Some stop) }
    {
        let Difference { untold } = self;
        Difference {
            untold: told.err().or(untold),
        }
    }

    /// How a comparison ends that came to it.
    pub fn ended(self) -> Ended
        ensures told { self.untold ≡ None → result.status ≡ 1 }
        ensures untold { IfSome self.untold (λ stop. IsEndOf stop result) }
    {
        let Difference { untold } = self;
        match untold {
            None => Ended::REFUSED,
            Some(stop) => Ended::from(stop),
        }
    }
}

impl<H: RandomSource + AllocGlobal + Drop> Twin<H> {
    /// Neither has a pipe. What the handles draw goes by the seed, and the machine is handed the
    /// same.
    pub fn new(rt: H, seed: u64) -> Twin<H> {
        let alloc = rt.alloc();
        Twin {
            player: Player::new(alloc),
            hands: Hands::new(rt, seed),
            machine: Reply::new(alloc),
            handles: Reply::new(alloc),
        }
    }

    /// Plays a line on both.
    pub fn play(&mut self, number: u64, line: &[u8]) -> Result<Compared, Stop>
        ensures alike { IfOk result (λ compared.
            (compared ≡ Compared.Alike) ⊎ (compared ≡ Compared.Refused) →
            self.new.machine ≡ self.new.handles) }
    {
        self.machine.clear();
        self.handles.clear();
        let command = match parse(self.hands.alloc(), line, self.hands.next_draws()) {
            Ok(None) => return Ok(Compared::Silent),
            Ok(Some(command)) if self.hands.is_only_machine(&command) => Err(Halt::OnlyMachine),
            Ok(Some(command)) => Ok(command),
            Err(stop) => Err(Halt::from(stop)),
        };
        let command = match command {
            Ok(command) => match self.common_length(&command) {
                Some(length) => Command::Whole(Call::WriteBuf(length)),
                None => command,
            },
            Err(halt) => {
                finish(Err(halt), number, &mut self.machine)?;
                finish(Err(halt), number, &mut self.handles)?;
                return Ok(self.compared(true));
            }
        };
        let played = self.player.play(&command, &mut self.machine);
        let is_refused = finish(played.map_err(Halt::from), number, &mut self.machine)?;
        let played = self.hands.play_any(&command, &mut self.handles);
        finish(played, number, &mut self.handles)?;
        Ok(self.compared(is_refused))
    }

    // What came of a line, by what both print.
    fn compared(&self, is_refused: bool) -> Compared
        ensures { (result ≡ Compared.Alike) ⊎ (result ≡ Compared.Refused) →
            self.now.machine ≡ self.now.handles }
    {
        if self.machine.as_bytes() != self.handles.as_bytes() {
            Compared::Differ(Difference { untold: None })
        } else if is_refused {
            Compared::Refused
        } else {
            Compared::Alike
        }
    }

    // How many places both lend where the contracts leave open how many a lend gets: as many as the
    // one of the two that lends fewer, so that both go on with as many.
    fn common_length(&mut self, command: &Command) -> Option<usize>
        requires { IsInLimits command.now }
    {
        if !is_open_lend(command) {
            return None;
        }
        let on_machine = self.player.play(command, &mut self.machine);
        let on_handles = self.hands.play_any(command, &mut self.handles);
        let on_machine = on_machine.ok().and_then(|()| length_of(&self.machine));
        let on_handles = on_handles.ok().and_then(|()| length_of(&self.handles));
        self.machine.clear();
        self.handles.clear();
        let length = on_machine?.min(on_handles?);
        (length >= MOST_OF_ONE_LENGTH).then_some(length)
    }
}

// The number that was printed.
fn length_of(reply: &Reply) -> Option<usize> {
    number(str::from_utf8(reply.as_bytes()).ok()?, 0, MOST).ok()
}
