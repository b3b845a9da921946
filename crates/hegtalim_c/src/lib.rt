// The C functions of libhegtalim.a, declared in include/hegtalim.h. Each is the function of its name in `hegtalim`, whose clauses it repeats.
#![tactic(auto)]

ghost use Rattle.std.specs.Prelude.{◌≡◌};
ghost use Rattle.hegtalim.specs.Answers.{loaded_answer, reported_answer, c_number};
ghost use Rattle.hegtalim.specs.Outcomes.{load, report, TimetabledNumber};
ghost use Rattle.schedule.specs.Book.{◌at◌};

// `load` for a program in C.
#[unsafe(no_mangle)]
pub extern "C" fn hegtalim_load(roads: &[u8], carts: &[u8], paths: &[u8], plan: &mut [u8]) -> u64
    ensures answer { result ≡ c_number (loaded_answer (load (record { roads = roads.now; carts = carts.now; paths = paths.now }) plan.old).answer) }
    ensures left { plan.new ≡ (load (record { roads = roads.now; carts = carts.now; paths = paths.now }) plan.old).plan }
{
    hegtalim::hegtalim_load(roads, carts, paths, plan)
}

// `report` for a program in C.
#[unsafe(no_mangle)]
pub extern "C" fn hegtalim_report(plan: &mut [u8], cart: u64, time: u64) -> u64
    ensures answer { result ≡ c_number (reported_answer (report plan.old (cart at time)).answer) }
    ensures left { plan.new ≡ (report plan.old (cart at time)).plan }
{
    hegtalim::hegtalim_report(plan, cart, time)
}

// `timetable` for a program in C.
#[unsafe(no_mangle)]
pub extern "C" fn hegtalim_timetable(
    plan: &[u8],
    times: &mut [u8],
    numbers: &mut [u8],
    directions: &mut [u8],
) -> u64
    ensures { TimetabledNumber plan.now
        (record { times = times.old; chain_bounds = numbers.old; chain_directions = directions.old })
        result
        (record { times = times.new; chain_bounds = numbers.new; chain_directions = directions.new }) }
{
    hegtalim::hegtalim_timetable(plan, times, numbers, directions)
}
