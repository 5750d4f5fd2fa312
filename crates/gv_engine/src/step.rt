ghost use Rattle.std.specs.Prelude.{◌≡◌, ◌+◌, ◌*◌, ◌<◌, ◌≤◌, ◌^◌, take, Ok};
ghost use Rattle.gv_cmd.specs.Effect.{effect};
ghost use Rattle.gv_exec.specs.Done.{raise_of};
ghost use Rattle.gv_gpu.specs.Step.{operations, runs_privileged, dwords_from, dwords_stray, head_read, retired, command_step, front_step};
ghost use Rattle.gv_engine.specs.Running.{stepping};
ghost use Rattle.gv_engine.specs.Soft.{loaded_of};
ghost use Rattle.gv_engine.specs.Whole.{whole};

use crate::context::Context;
use crate::place::{front_at, is_privileged, moved, stands_of};
use crate::space::Running;
use crate::strays::either;
use crate::{Entry, SoftGpu};
use gv_cmd::{Command, MAX_COMMAND_DWORDS, allowed, decode, length};
use gv_exec::{Done, run};
use gv_gpu::Step;
use gv_types::EngineId;

/// The front command's dwords as they were read, and whether a read strayed.
#[derive(Drop)]
struct Fetched {
    words: [u32; MAX_COMMAND_DWORDS],
    count: usize,
    strayed: bool,
}

impl SoftGpu {
    /// Reads so many dwords.
    fn fetch_dwords(&self, context: &Context, global: bool, at: u64, count: usize) -> Fetched
        requires few { count ≤ 65 }
        requires small { at < 2 ^ 48 }
        ensures count { result.count ≡ count }
        ensures words { take count result.words ≡ dwords_from (whole self.now) context.now.root global at count }
        ensures strayed { result.strayed ≡ dwords_stray (whole self.now) (loaded_of context.now) global at count }
    {
        let mut words = [0; MAX_COMMAND_DWORDS];
        let mut strayed = false;
        for n in 0..count {
            let here = at + 4 * n as u64;
            let (word, stray) = self.dword(context, global, here);
            words[n] = word;
            strayed = either(strayed, stray);
        }
        Fetched {
            words,
            count,
            strayed,
        }
    }

    /// Reads the front command: its header alone, and where a row of the command table has such a
    /// header all dwords of its length.
    #[tactic(auto, unfolding(gv_gpu::specs::Step::head_read))]
    fn fetch(&self, context: &Context) -> Fetched
        ensures few { result.count ≤ 65 }
        ensures words { take result.count result.words ≡ (head_read (whole self.now) (loaded_of context.now)).words }
        ensures strayed { result.strayed ≡ (head_read (whole self.now) (loaded_of context.now)).strayed }
    {
        let global = is_privileged(&context.place);
        let at = front_at(context);
        let (header, _) = self.dword(context, global, at);
        let count = length(header).unwrap_or(1);
        self.fetch_dwords(context, global, at, count)
    }

    /// Runs a command over the space of its context, and answers how it went, and whether an access
    /// strayed so far.
    fn run_over(
        &mut self,
        engine: EngineId,
        context: &Context,
        command: &Command,
        privileged: bool,
        strayed: bool,
    ) -> (Done, bool)
        requires { engine.0 < 4 }
        ensures device { whole self.new ≡ (effect operations command.now engine.0 privileged (stepping (whole self.old) engine.0 context.now strayed)).after.device }
        ensures strayed { result.1 ≡ (effect operations command.now engine.0 privileged (stepping (whole self.old) engine.0 context.now strayed)).after.strayed }
        ensures raise { raise_of result.0 ≡ (effect operations command.now engine.0 privileged (stepping (whole self.old) engine.0 context.now strayed)).raise }
    {
        let mut space = Running {
            gpu: self,
            engine,
            context: *context,
            strayed,
        };
        let done = run(command, engine, privileged, &mut space);
        let Running {
            gpu: _,
            engine: _,
            context: _,
            strayed,
        } = space;
        (done, strayed)
    }

    /// The same, which leaves the journal's room.
    fn perform(
        &mut self,
        engine: EngineId,
        context: &Context,
        command: &Command,
        privileged: bool,
        strayed: bool,
    ) -> (Done, bool)
        requires { engine.0 < 4 }
        ensures device { whole self.new ≡ (effect operations command.now engine.0 privileged (stepping (whole self.old) engine.0 context.now strayed)).after.device }
        ensures strayed { result.1 ≡ (effect operations command.now engine.0 privileged (stepping (whole self.old) engine.0 context.now strayed)).after.strayed }
        ensures raise { raise_of result.0 ≡ (effect operations command.now engine.0 privileged (stepping (whole self.old) engine.0 context.now strayed)).raise }
        ensures spare { (whole self.new).spare ≡ (whole self.old).spare }
    {
        self.run_over(engine, context, command, privileged, strayed)
    }

    /// A command of so many dwords ran: the place moves past it, and the journal gets it.
    fn finish(&mut self, engine: EngineId, context: &Context, command: &Command, dwords: usize)
        requires engine { engine.0 < 4 }
        requires room { 1 ≤ (whole self.old).spare }
        requires few { dwords ≤ 65 }
        ensures { whole self.new ≡ retired (whole self.old) engine.0 (loaded_of context.now) command.now dwords }
    {
        let next = Context {
            descriptor: context.descriptor,
            owner: context.owner,
            place: moved(context.place, command, dwords),
            tail: context.tail,
            ring_start: context.ring_start,
            root: context.root,
        };
        self.set_context(engine.0, Some(next));
        self.log(Entry {
            engine,
            guest: context.owner,
            shape: command.shape(),
        });
    }

    /// The step of a listed command of so many dwords.
    fn step_command(
        &mut self,
        engine: EngineId,
        context: &Context,
        command: &Command,
        dwords: usize,
        strayed: bool,
    ) -> Step
        requires engine { engine.0 < 4 }
        requires room { 1 ≤ (whole self.old).spare }
        requires few { dwords ≤ 65 }
        ensures after { whole self.new ≡ (command_step (stepping (whole self.old) engine.0 context.now strayed) (Ok (command.now, dwords))).after }
        ensures answer { result ≡ (command_step (stepping (whole self.old) engine.0 context.now strayed) (Ok (command.now, dwords))).answer }
    {
        if !allowed(command, stands_of(&context.place), engine.0) {
            self.settle(strayed);
            return Step::Unlisted;
        }
        let (done, strayed) = self.perform(
            engine,
            context,
            command,
            is_privileged(&context.place),
            strayed,
        );
        self.settle(strayed);
        match done {
            Done::Waits => Step::Waits,
            Done::Ran { raise } => {
                self.finish(engine, context, command, dwords);
                Step::Ran {
                    command: *command,
                    raise,
                }
            }
        }
    }

    /// The step of a context that has a command left.
    pub(crate) fn step_front(&mut self, engine: EngineId, context: &Context) -> Step
        requires engine { engine.0 < 4 }
        requires room { 1 ≤ (whole self.old).spare }
        ensures after { whole self.new ≡ (front_step (whole self.old) engine.0 (loaded_of context.now)).after }
        ensures answer { result ≡ (front_step (whole self.old) engine.0 (loaded_of context.now)).answer }
    {
        let fetched = self.fetch(context);
        match decode(&fetched.words[..fetched.count]) {
            Err(_) => {
                self.settle(fetched.strayed);
                Step::Unlisted
            }
            Ok((command, dwords)) => {
                self.step_command(engine, context, &command, dwords, fetched.strayed)
            }
        }
    }
}
