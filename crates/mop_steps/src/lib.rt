// Calls that include/mop.h declares: the steps of both ends, each record by value, for a line driver in C.
#![tactic(auto)]

ghost use Rattle.std.specs.Prelude.{◌≡◌};
ghost use Rattle.step.specs.Step.{Leaves};
ghost use Rattle.machine_record.specs.Record.{requesting, offering};
ghost use Rattle.machine_timer.specs.Timer.{machine_timer};
ghost use Rattle.machine.specs.Machine.{machine_frame};
ghost use Rattle.load_record.specs.Record.{fresh as fresh_load};
ghost use Rattle.load.specs.Load.{load_frame, load_timer};
ghost use Rattle.dump_record.specs.Record.{fresh as fresh_dump};
ghost use Rattle.dump.specs.Dump.{dump_frame, dump_timer};
ghost use Rattle.looptest.specs.Loop.{loop_start, loop_frame, loop_timer};

use buffer::Written;
use machine_record::Machine;

// The machine end: mop_machine of the header.

#[unsafe(no_mangle)]
pub extern "C" fn mop_machine_start_load(
    settings: machine_record::Settings,
    memory: &[u8],
    reply: &mut [u8],
) -> machine_record::Stepped
    ensures { Leaves (machine_timer settings requesting memory.now reply.old) result.machine result.answer memory.now reply.new }
{
    let machine = Machine::requesting();
    let answer = Written::from(machine_timer::timer(settings, machine, memory, reply));
    machine_record::Stepped { machine, answer }
}

#[unsafe(no_mangle)]
pub extern "C" fn mop_machine_start_dump(
    settings: machine_record::Settings,
    memory: &[u8],
    reply: &mut [u8],
) -> machine_record::Stepped
    ensures { Leaves (machine_timer settings offering memory.now reply.old) result.machine result.answer memory.now reply.new }
{
    let machine = Machine::offering();
    let answer = Written::from(machine_timer::timer(settings, machine, memory, reply));
    machine_record::Stepped { machine, answer }
}

#[unsafe(no_mangle)]
pub extern "C" fn mop_machine_frame(
    settings: machine_record::Settings,
    machine: Machine,
    frame: &[u8],
    memory: &mut [u8],
    reply: &mut [u8],
) -> machine_record::Stepped
    ensures { Leaves (machine_frame settings machine frame.now memory.old reply.old) result.machine result.answer memory.new reply.new }
{
    let mut machine = machine;
    let answer = Written::from(machine::frame(settings, &mut machine, frame, memory, reply));
    machine_record::Stepped { machine, answer }
}

#[unsafe(no_mangle)]
pub extern "C" fn mop_machine_timer(
    settings: machine_record::Settings,
    machine: Machine,
    memory: &[u8],
    reply: &mut [u8],
) -> machine_record::Stepped
    ensures { Leaves (machine_timer settings machine memory.now reply.old) result.machine result.answer memory.now reply.new }
{
    let answer = Written::from(machine_timer::timer(settings, machine, memory, reply));
    machine_record::Stepped { machine, answer }
}

// The host's load: mop_load of the header.

#[unsafe(no_mangle)]
pub extern "C" fn mop_load_start() -> load_record::Session
    ensures { result ≡ fresh_load }
{
    load_record::start()
}

#[unsafe(no_mangle)]
pub extern "C" fn mop_load_frame(
    settings: load_record::Settings,
    session: load_record::Session,
    file: &[u8],
    parameters: &[u8],
    frame: &[u8],
    reply: &mut [u8],
) -> load::Stepped
    ensures { Leaves (load_frame settings session file.now parameters.now frame.now reply.old) result.session result.answer tt reply.new }
{
    let mut session = session;
    let answer = Written::from(load::frame(settings, &mut session, file, parameters, frame, reply));
    load::Stepped { session, answer }
}

#[unsafe(no_mangle)]
pub extern "C" fn mop_load_timer(
    settings: load_record::Settings,
    session: load_record::Session,
    file: &[u8],
    parameters: &[u8],
    reply: &mut [u8],
) -> load::Stepped
    ensures { Leaves (load_timer settings session file.now parameters.now reply.old) result.session result.answer tt reply.new }
{
    let mut session = session;
    let answer = Written::from(load::timer(settings, &mut session, file, parameters, reply));
    load::Stepped { session, answer }
}

// The host's dump: mop_dump of the header.

#[unsafe(no_mangle)]
pub extern "C" fn mop_dump_start() -> dump_record::Session
    ensures { result ≡ fresh_dump }
{
    dump_record::start()
}

#[unsafe(no_mangle)]
pub extern "C" fn mop_dump_frame(
    settings: dump_record::Settings,
    session: dump_record::Session,
    frame: &[u8],
    buffer: &mut [u8],
    reply: &mut [u8],
) -> dump::Stepped
    ensures { Leaves (dump_frame settings session frame.now buffer.old reply.old) result.session result.answer buffer.new reply.new }
{
    let mut session = session;
    let answer = Written::from(dump::frame(settings, &mut session, frame, buffer, reply));
    dump::Stepped { session, answer }
}

#[unsafe(no_mangle)]
pub extern "C" fn mop_dump_timer(
    settings: dump_record::Settings,
    session: dump_record::Session,
    buffer: &[u8],
    reply: &mut [u8],
) -> dump::Stepped
    ensures { Leaves (dump_timer settings session buffer.now reply.old) result.session result.answer buffer.now reply.new }
{
    let mut session = session;
    let answer = Written::from(dump::timer(settings, &mut session, buffer, reply));
    dump::Stepped { session, answer }
}

// The host's loop test: mop_loop of the header.

#[unsafe(no_mangle)]
pub extern "C" fn mop_loop_start(
    settings: looptest_record::Settings,
    bytes: &[u8],
    reply: &mut [u8],
) -> looptest::Stepped
    ensures { Leaves (loop_start settings bytes.now reply.old) result.session result.answer tt reply.new }
{
    let session = looptest::begun();
    let answer = Written::from(looptest::start(settings, bytes, reply));
    looptest::Stepped { session, answer }
}

#[unsafe(no_mangle)]
pub extern "C" fn mop_loop_frame(
    settings: looptest_record::Settings,
    session: looptest_record::Session,
    bytes: &[u8],
    frame: &[u8],
    reply: &[u8],
) -> looptest::Stepped
    ensures { Leaves (loop_frame settings session bytes.now frame.now reply.now) result.session result.answer tt reply.now }
{
    let mut session = session;
    let answer = Written::from(looptest::frame(settings, &mut session, bytes, frame, reply));
    looptest::Stepped { session, answer }
}

#[unsafe(no_mangle)]
pub extern "C" fn mop_loop_timer(
    settings: looptest_record::Settings,
    session: looptest_record::Session,
    bytes: &[u8],
    reply: &mut [u8],
) -> looptest::Stepped
    ensures { Leaves (loop_timer settings session bytes.now reply.old) result.session result.answer tt reply.new }
{
    let mut session = session;
    let answer = Written::from(looptest::timer(settings, &mut session, bytes, reply));
    looptest::Stepped { session, answer }
}
