// What no clause can say: that numbers from outside come out as the rule says. Each call once.

use crate::{By, Serializer, lane_of, serializer_of, set_of};
use ss_base::{Lane, ObjectId, SetId};

#[test]
fn the_first_three_objects_by_sequence_have_the_sets_0_1_and_2(rt: HostRuntime) {
    for (object, sequence_objects, set) in [(3, 0, 0), (8, 1, 1), (9, 2, 2)] {
        let serializer = serializer_of(By::Sequence, sequence_objects);
        assert_eq!(rt;
            set_of(serializer, ObjectId(object), 77),
            SetId(set),
            "at {object}"
        );
    }
}

#[test]
fn an_object_or_an_operation_names_its_set(rt: HostRuntime) {
    assert_eq!(rt; serializer_of(By::Object, 5), Serializer::Object);
    assert_eq!(rt; set_of(Serializer::Object, ObjectId(3), 77), SetId(3));
    assert_eq!(rt; serializer_of(By::Own, 5), Serializer::Own);
    assert_eq!(rt; set_of(Serializer::Own, ObjectId(3), 77), SetId(77));
}

#[test]
fn a_set_runs_in_the_lane_of_its_number_modulo_the_lanes(rt: HostRuntime) {
    for (set, n, lane) in [
        (65, 64, 1),
        (64, 64, 0),
        (7, 1, 0),
        (18446744073709551615, 10, 5),
    ] {
        assert_eq!(rt; lane_of(SetId(set), n), Lane(lane), "at {set}");
    }
}
