//! The built-in description.

/// The description of a small machine of one core, which is built in under the name `plain`.
pub const PLAIN: &str = "version = 1
cores = 1
interval = 10000
intervals = 100000

[memory]
base = 65536
size = 1048576
stack = 4096

[l1]
sets = 2
ways = 1
latency = 1

[l2]
banks = 1
sets = 4
ways = 2
latency = 10
remote = 5
fill = 2
occupancy = 4

[controllers]
count = 1
read = 100
write = 40
occupancy = 20

[domains]
count = 2
banks = [0]
controllers = [1]
";
