// Steps on the nodes of a tree, for the crates that change trees.

pub use crate::bounds::{raise_top, set_top};
pub use crate::insert::{link_node, place};
pub use crate::nodes::{
    count_of, insert_link, kind_of, move_links, own_node, publish_node, row_at, set_count, swap,
    top_of,
};
