// An assembly's check, on small examples.

use crate::assembly::check;
use crate::faults::AssemblyFault;

#[test]
fn an_assembly_names_the_lowest_wrong_part(rt: HostRuntime) {
    assert_eq!(rt; check(&[1; 250]), Ok(()));
    assert_eq!(rt; check(&[250; 250]), Ok(()));
    assert_eq!(rt; check(&[0; 250]), Err(AssemblyFault::Wrong(1)));
    let mut table = [3; 250];
    table[3] = 4;
    assert_eq!(rt; check(&table), Ok(()));
    table[9] = 9;
    assert_eq!(rt; check(&table), Err(AssemblyFault::Wrong(10)));
}
