// The archive for C: it exports the calls of `mms` that answer in one word, under their names and with their promises.
#![tactic(auto)]

ghost use Rattle.std.specs.Prelude.{◌≡◌};
ghost use Rattle.mms.specs.Contract.{Exports, Listing, Reading, ReadingTables, Running, Stepping, Writing, WritingTables, checking, exported};

// The state check.
#[unsafe(no_mangle)]
pub extern "C" fn mms_check(tables: &[u32]) -> u64
    ensures { result ≡ exported (checking tables.now) }
{
    mms::mms_check(tables)
}

// The step.
#[unsafe(no_mangle)]
pub extern "C" fn mms_step(tables: &mut [u32], request: &[u32]) -> u64
    ensures { Exports (Stepping tables.old request.now) result tables.new }
{
    mms::mms_step(tables, request)
}

// The run.
#[unsafe(no_mangle)]
pub extern "C" fn mms_run(tables: &mut [u32], requests: &[u32], answers: &mut [u32]) -> u64
    ensures { Exports (λ a u. Running tables.old requests.now answers.old a u answers.new) result
        tables.new }
{
    mms::mms_run(tables, requests, answers)
}

// The disclosure list.
#[unsafe(no_mangle)]
pub extern "C" fn mms_list(tables: &[u32], user: u32, room: &mut [u32]) -> u64
    ensures { Exports (Listing tables.now user room.old) result room.new }
{
    mms::mms_list(tables, user, room)
}

// The reader of a request.
#[unsafe(no_mangle)]
pub extern "C" fn mms_read(text: &[u8], request: &mut [u32]) -> u64
    ensures { Exports (Reading text.now request.old) result request.new }
{
    mms::mms_read(text, request)
}

// The writer of a request.
#[unsafe(no_mangle)]
pub extern "C" fn mms_write(request: &[u32], room: &mut [u8]) -> u64
    ensures { Exports (Writing request.now room.old) result room.new }
{
    mms::mms_write(request, room)
}

// The writer of tables.
#[unsafe(no_mangle)]
pub extern "C" fn mms_write_tables(tables: &[u32], room: &mut [u8]) -> u64
    ensures { Exports (WritingTables tables.now room.old) result room.new }
{
    mms::mms_write_tables(tables, room)
}

// The reader of tables.
#[unsafe(no_mangle)]
pub extern "C" fn mms_read_tables(text: &[u8], tables: &mut [u32]) -> u64
    ensures { Exports (ReadingTables text.now tables.old) result tables.new }
{
    mms::mms_read_tables(text, tables)
}
