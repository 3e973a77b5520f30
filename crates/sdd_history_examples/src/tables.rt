ghost use Rattle.sdd_laws.specs.All.{IsTable};
ghost use Rattle.sdd_history_examples.specs.Catalogues.{bridge, crossing, one_class, one_reader, one_writer, second_class_list};
ghost use Rattle.sdd_history_examples.specs.Tables.{table_of_bridge, table_of_one, table_of_one_reader, table_of_crossing, table_of_two};

/// The protocol tables of the worked catalogues: no edge lies on a cycle; the two diagonals of one
/// reader and one writer form one; all edges lie on one; two edges don't meet; there is one edge alone.
/// Takes no memory.
pub fn law_tables()
    ensures bridge { IsTable bridge table_of_bridge }
    ensures one_reader { IsTable one_reader table_of_one_reader }
    ensures crossing { IsTable crossing table_of_crossing }
    ensures second_class_list { IsTable second_class_list table_of_two }
    ensures one_class { IsTable one_class table_of_one }
    ensures one_writer { IsTable one_writer table_of_one }
{}
