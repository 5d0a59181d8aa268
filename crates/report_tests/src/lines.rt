//! The longest lines, by the definitions that the report is proved to follow. Each is the contract
//! of a function that does nothing.
ghost use Rattle.std.specs.Prelude.{◌≡◌, ◌-◌, ◌^◌, ◌++◌, ℕ, List, Some, codes, length};
ghost use Rattle.bound_core.specs.TimedCore.{TimedCore};
ghost use Rattle.report.specs.ReportText.{component_line, console_line, core_line, printed};
ghost use Rattle.rv_core.specs.declared.why.Why.TheVariants as why;

/// The first line of core 255 of a machine whose fetches are counted, with the greatest counts and
/// the greatest clock.
pub fn longest_core_line()
    ensures { (c : TimedCore) → c.instructions ≡ 3 → c.clock ≡ 2 ^ 64 - 1
        → c.core.halted ≡ Some (why.Exit (2 ^ 64 - 1))
        → core_line 2 255 c (record {
          delay = 2 ^ 128 - 1;
          loads = 2 ^ 64 - 1;
          stores = 2 ^ 64 - 1;
          atomics = 2 ^ 64 - 1;
          fetches = 2 ^ 64 - 1;
          hits = 2 ^ 64 - 1;
          upgrades = 2 ^ 64 - 1;
          l2hits = 2 ^ 64 - 1;
          misses = 2 ^ 64 - 1;
        })
        ≡ codes "core 255 instructions 3 cycles 18446744073709551615 delay 340282366920938463463374607431768211455 loads 18446744073709551615 stores 18446744073709551615 atomics 18446744073709551615 fetches 18446744073709551615 hits 18446744073709551615 upgrades 18446744073709551615 l2hits 18446744073709551615 misses 18446744073709551615 halt exit 18446744073709551615\n" }
{}

/// The line of a controller with the greatest counts.
pub fn longest_component_line()
    ensures { component_line (codes "controller") 0 (record {
      events = 2 ^ 64 - 1;
      waited = 2 ^ 128 - 1;
      free = 2 ^ 64 - 1;
    })
        ≡ codes "controller 0 events 18446744073709551615 waited 340282366920938463463374607431768211455 free 18446744073709551615\n" }
{}

/// The second line of core 255, whose console has 1 MiB.
pub fn longest_console_line()
    ensures { (console : List ℕ) → length console ≡ 2 ^ 20 → console_line 255 console
        ≡ codes "core 255 console 1048576 \"" ++ (printed console ++ codes "\"\n") }
{}
