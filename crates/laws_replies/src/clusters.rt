//! States a law on new clusters as artifacts.
ghost use Rattle.laws_replies.specs.Clusters.{MadeClustersRead};

use fsl_card::text_is_finished;
use fsl_forms::written_texts_read_back;

/// The text that `fsl_cluster::make_cluster` writes for some names is a cluster, and its members are these names in their order.
/// This is a law and no code.
pub fn made_clusters_read()
    ensures { MadeClustersRead }
{
    text_is_finished();
    written_texts_read_back();
}
