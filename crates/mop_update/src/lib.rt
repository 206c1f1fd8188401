// Calls that include/mop.h declares: the host's records updated in their place, for a line driver in C.
#![tactic(auto)]

ghost use Rattle.step.specs.Step.{Leaves};
ghost use Rattle.load.specs.Load.{load_frame, load_timer};
ghost use Rattle.dump.specs.Dump.{dump_frame, dump_timer};

use buffer::Written;

// The host's load: mop_load of the header.

#[unsafe(no_mangle)]
pub extern "C" fn mop_load_update_frame(
    settings: load_record::Settings,
    session: &mut load_record::Session,
    file: &[u8],
    parameters: &[u8],
    frame: &[u8],
    reply: &mut [u8],
) -> Written
    ensures { Leaves (load_frame settings session.old file.now parameters.now frame.now reply.old) session.new result tt reply.new }
{
    Written::from(load::frame(settings, session, file, parameters, frame, reply))
}

#[unsafe(no_mangle)]
pub extern "C" fn mop_load_update_timer(
    settings: load_record::Settings,
    session: &mut load_record::Session,
    file: &[u8],
    parameters: &[u8],
    reply: &mut [u8],
) -> Written
    ensures { Leaves (load_timer settings session.old file.now parameters.now reply.old) session.new result tt reply.new }
{
    Written::from(load::timer(settings, session, file, parameters, reply))
}

// The host's dump: mop_dump of the header.

#[unsafe(no_mangle)]
pub extern "C" fn mop_dump_update_frame(
    settings: dump_record::Settings,
    session: &mut dump_record::Session,
    frame: &[u8],
    buffer: &mut [u8],
    reply: &mut [u8],
) -> Written
    ensures { Leaves (dump_frame settings session.old frame.now buffer.old reply.old) session.new result buffer.new reply.new }
{
    Written::from(dump::frame(settings, session, frame, buffer, reply))
}

#[unsafe(no_mangle)]
pub extern "C" fn mop_dump_update_timer(
    settings: dump_record::Settings,
    session: &mut dump_record::Session,
    buffer: &[u8],
    reply: &mut [u8],
) -> Written
    ensures { Leaves (dump_timer settings session.old buffer.now reply.old) session.new result buffer.now reply.new }
{
    Written::from(dump::timer(settings, session, buffer, reply))
}
