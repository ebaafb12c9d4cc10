//! A machine that goes on from what its agent carries.
ghost use Rattle.std.specs.Prelude.{◌≡◌, IfOk, IfSome};

use crate::tests::code::code_of;
use psy_base::Memory;
use psy_code::Code;
use psy_machine::Machine;
use std::alloc::Global;
use std::test::Fail;

const LATER: &str =
    "temporal v of A on c = 6 depth 2; agent A on c budget 99 { int n = 7; int a[2]; body { v = n; advance 1 on c; n = past(v, 1); advance 2 on c; } }";

// The machine of the first agent at a point with these cells and copies, where the code has that point and as many of them.
fn resumed(
    alloc: Global,
    code: &Code,
    point: u32,
    cells: &[i64],
    copies: &[i32],
) -> Result<Option<Machine>, Memory>
    ensures { IfOk result (λ machine. IfSome machine (λ m. m.machine.home.cells ≡ cells.now)) }
{
    let Some(agent) = code.agents.get(0) else {
        return Ok(None);
    };
    if point as usize >= agent.points.len()
        || cells.len() != agent.cells.len()
        || copies.len() != agent.copies.len()
    {
        return Ok(None);
    }
    let machine = Machine::resume(alloc, code, 0, point, cells, copies)?;
    Ok(Some(machine))
}

#[test]
fn a_machine_goes_on_at_a_point_with_its_cells(rt: HostRuntime) -> Result<(), Fail> {
    const CELLS: [i64; 3] = [-9_000_000_000, 5, 6];
    let code = code_of(&rt, LATER)?;
    for (point, look) in [(0, None), (1, Some((0, 1)))] {
        let machine = resumed(rt.alloc(), &code, point, &CELLS, &[8])?.expect(
            &rt,
            "the point is there",
        );
        assert_eq!(rt; machine.look_due(&code), look, "at {point}");
        for (place, value) in [(0, -9_000_000_000), (1, 5), (2, 6)] {
            assert_eq!(rt; machine.cell(place), value, "cell {place}");
        }
    }
    Ok(())
}
