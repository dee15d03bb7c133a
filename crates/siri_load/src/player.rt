//! The player of a load.

ghost use Rattle.std.specs.Prelude.{◌≡◌, ◌+◌, ◌<◌, ◌≤◌, ◌++◌, [], ◌∷◌, List as Items, Ok, IfOk, OnOk, IfErr};
ghost use Rattle.siri_world_model.specs.declared.event.Event.{Event as AnEvent};
ghost use Rattle.siri_world_model.specs.Lines.{told_lines};
ghost use Rattle.siri_world_model.specs.Told.{told, world_after};
ghost use Rattle.siri_world.specs.Known.{StandsFor};
ghost use Rattle.siri_world.specs.Refused.{Refuses, Stays};
ghost use Rattle.siri_load.specs.Load.{Progress, fresh, world_of, cancels, clocks, delivers, delivers_or_loses, feeds, happens, makes, makes_by, opens, plays, sent, subscribes, takes_all, view, views};
ghost use Rattle.siri_load.specs.Playing.{Plays, Does, takes, Shown, IsUntold};

use crate::events::{
    cancelling, clocking, delivering, feeding, first_moment, later, starting, subscribing, viewing,
};
use crate::generator::Generator;
use crate::network::Network;
use crate::stop::Stop;
use siri_base::{List, Moment, OutOfMemory};
use siri_world::World;
use siri_world_model::{Event, Line, StepError};
use std::alloc::Global;
use std::marker::Model;

/// The most lines of a script.
const MOST_LINES: u64 = 1_000_000;

/// Plays the script of a load as it is made. Contracts see its world, the number of its generator, the moment that it
/// gave last, how many lines it made, how many packets it looked at in order of number, and how many of these it lost.
#[derive(Drop)]
pub(crate) struct Player {
    alloc: Global,
    world: World,
    generator: Generator,
    moment: Moment,
    lines: u64,
    looked: u64,
    lost: u64,
}

impl Model for Player {
    ghost use Rattle.siri_load.specs.Playing.{Playing, IsWithin};

    ghost Value = { Playing };

    ghost view = { λ p. record { world = p.world; number = p.generator; moment = p.moment; lines = p.lines; looked = p.looked; lost = p.lost } };

    ghost invariant = { λ p. IsWithin p.moment p.lines p.looked p.lost };
}

impl Player {
    /// Before the first line.
    pub(crate) fn new(alloc: Global, seed: u64) -> Result<Player, OutOfMemory>
        ensures { IfOk result (λ player. Plays player (fresh seed)) }
    {
        Ok(Player {
            alloc,
            world: World::new(alloc)?,
            generator: Generator::new(seed),
            moment: first_moment(),
            lines: 0,
            looked: 0,
            lost: 0,
        })
    }

    /// How many lines were made.
    pub(crate) fn lines(&self) -> u64
        ensures { result ≡ self.now.lines }
    {
        self.lines
    }

    /// How many packets were sent.
    pub(crate) fn sent(&self) -> u64
        ensures number { (progress : Progress) → Plays self.now progress → result ≡ sent progress }
        ensures bound { result ≤ 1000000 }
    {
        self.world.sent()
    }

    /// How many packets were lost.
    pub(crate) fn lost(&self) -> u64
        ensures { result ≡ self.now.lost }
    {
        self.lost
    }

    /// One more line is made, which is this event.
    fn make(&mut self, event: Box<Event>) -> Result<(), Stop>
        ensures made { Does self.old self.new result (makes event.value) }
        ensures rest { OnOk result (self.new ≡ record self.old { world = self.new.world; lines = self.old.lines + 1 }) }
    {
        let line = self.lines + 1;
        if line > MOST_LINES {
            return Err(Stop::Limit(line));
        }
        match step(&mut self.world, event) {
            Ok(_) => {}
            Err(error) => return Err(Stop::of(error, line)),
        }
        self.lines = line;
        Ok(())
    }

    // ---- packets

    /// The next packet is delivered.
    fn deliver(&mut self) -> Result<(), Stop>
        requires { self.old.looked < 1000000 }
        ensures done { Does self.old self.new result delivers }
        ensures looked { OnOk result (self.new.looked ≡ self.old.looked + 1) }
    {
        self.looked += 1;
        self.make(delivering(self.alloc, self.looked)?)
    }

    /// The next packet is lost where 0 of 10 is drawn, and else delivered.
    fn deliver_or_lose(&mut self) -> Result<(), Stop>
        requires { self.old.looked < 1000000 }
        ensures done { Does self.old self.new result delivers_or_loses }
        ensures looked { OnOk result (self.new.looked ≡ self.old.looked + 1) }
    {
        if self.generator.draw(10) == 0 {
            self.looked += 1;
            self.lost += 1;
            return Ok(());
        }
        self.deliver()
    }

    /// The next packet is delivered, or may be lost where the network loses some.
    fn take(&mut self, network: Network) -> Result<(), Stop>
        requires { self.old.looked < 1000000 }
        ensures done { Does self.old self.new result (takes network) }
        ensures looked { OnOk result (self.new.looked ≡ self.old.looked + 1) }
    {
        match network {
            Network::Lossless => self.deliver(),
            Network::Lossy => self.deliver_or_lose(),
        }
    }

    /// Every new packet is taken in order of number until none is left.
    fn take_all(&mut self, network: Network) -> Result<(), Stop>
        ensures { Does self.old self.new result (takes_all (takes network)) }
    {
        while self.looked < self.world.sent() {
            self.take(network)?;
        }
        Ok(())
    }

    // ---- the script

    /// The start and the four subscriptions.
    fn open(&mut self) -> Result<(), Stop>
        ensures { Does self.old self.new result opens }
    {
        self.make(starting(self.alloc)?)?;
        self.subscribe(1)?;
        self.subscribe(2)?;
        self.subscribe(3)?;
        self.subscribe(4)
    }

    /// The consumer asks for its subscription of a number, and every packet is delivered.
    fn subscribe(&mut self, number: u64) -> Result<(), Stop>
        ensures { Does self.old self.new result (subscribes number) }
    {
        self.make(subscribing(self.alloc, number)?)?;
        self.take_all(Network::Lossless)
    }

    /// The clock moves on by a second or more, a minute at most.
    fn move_clock(&mut self) -> Result<(), Stop>
        ensures { Does self.old self.new result clocks }
    {
        let seconds = self.generator.draw(60) + 1;
        let moment = later(self.moment, seconds);
        self.make(clocking(self.alloc, moment)?)?;
        self.moment = moment;
        Ok(())
    }

    /// A visit is fed, which departs within two hours.
    fn feed(&mut self) -> Result<(), Stop>
        ensures { Does self.old self.new result feeds }
    {
        let at = self.generator.draw(4) + 1;
        let known_by = self.generator.draw(500);
        let departure = later(self.moment, self.generator.draw(7200));
        self.make(feeding(self.alloc, at, known_by, departure)?)
    }

    /// A visit is cancelled.
    fn cancel(&mut self) -> Result<(), Stop>
        ensures { Does self.old self.new result cancels }
    {
        let stop = self.generator.draw(4) + 1;
        let item = self.generator.draw(500);
        self.make(cancelling(self.alloc, stop, item)?)
    }

    /// What was drawn of 10 says what is made: the clock by 0, a cancellation by 9, a visit by the others.
    fn make_drawn(&mut self, choice: u64) -> Result<(), Stop>
        ensures { Does self.old self.new result (makes_by choice) }
    {
        match choice {
            0 => self.move_clock(),
            9 => self.cancel(),
            _ => self.feed(),
        }
    }

    /// An event is drawn, and every new packet is delivered or lost.
    fn happen(&mut self) -> Result<(), Stop>
        ensures { Does self.old self.new result happens }
    {
        let choice = self.generator.draw(10);
        self.make_drawn(choice)?;
        self.take_all(Network::Lossy)
    }

    /// The whole script, with so many events.
    pub(crate) fn play(&mut self, count: u64) -> Result<(), Stop>
        ensures { Does self.old self.new result (plays count) }
    {
        self.open()?;
        for _ in 0..count {
            self.happen()?;
        }
        Ok(())
    }

    // ---- what it comes to

    /// What is told of the four views.
    pub(crate) fn views(&mut self) -> Result<Vec<Line>, OutOfMemory>
        ensures { (progress : Progress) → Plays self.old progress → IfOk result (λ lines. Shown self.new lines.items (views (world_of progress)) progress) }
    {
        let mut lines = self.view(1)?;
        lines.append(&mut self.view(2)?)?;
        lines.append(&mut self.view(3)?)?;
        lines.append(&mut self.view(4)?)?;
        Ok(lines)
    }

    /// What is told of the view of a number. It passes no limit.
    fn view(&mut self, number: u64) -> Result<Vec<Line>, OutOfMemory>
        ensures { (progress : Progress) → Plays self.old progress → IfOk result (λ lines. Shown self.new lines.items (view number (world_of progress)) progress) }
    {
        let event = viewing(self.alloc, number)?;
        let lines = match step(&mut self.world, event) {
            Ok(lines) => lines,
            Err(error) => return untold(self.alloc, error),
        };
        Ok(lines.into_vec())
    }
}

/// The next event of a script, handed over to the world.
fn step(world: &mut World, event: Box<Event>) -> Result<List<Line>, StepError>
    ensures lines { IfOk result (λ lines. (es : Items AnEvent) → StandsFor world.old es → told (world_after es) event.value ≡ Ok (told_lines lines)) }
    ensures ok { OnOk result ((es : Items AnEvent) → StandsFor world.old es → StandsFor world.new (es ++ event.value ∷ [])) }
    ensures refused { IfErr result (λ error. (es : Items AnEvent) → StandsFor world.old es → Refuses (world_after es) event.value error) }
    ensures rest { IfErr result (λ error. Stays error world.old world.new) }
{
    world.step(Box::into_inner(event))
}

/// Nothing is told of a view that is refused.
fn untold(alloc: Global, error: StepError) -> Result<Vec<Line>, OutOfMemory>
    ensures { IfOk result (λ lines. IsUntold error lines.items) }
{
    match error {
        StepError::OutOfMemory => Err(OutOfMemory),
        StepError::NotStarted
        | StepError::StartLimit
        | StepError::ConsumerLimit
        | StepError::PacketLimit => Ok(Vec::new(alloc)),
    }
}
