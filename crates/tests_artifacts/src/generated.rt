//! Generated artifacts. The names are those of Python's `hashlib` over texts that it made by the table.
ghost use Rattle.std.specs.Prelude.{◌≤◌};

use fsl_gen::{
    arrives_each_once, artifacts, follows_table, has_as_many, is_told_by_table, names_earlier_ones,
    reverses,
};
use fsl_name::Name;
use fsl_text::{Memory, Text};
use std::alloc::Global;

/// The names of the first 45 artifacts in their order, a newline behind each.
const NAMES: &[u8] =
    b"1ebe422771a22b0d210608e13be27797ed2e75cd\nbf53249f1b12022466a5e5e162fb9efe777f0bf4\n4a51f3d40a84f402898526576b6d885e05195f70\n0fcd2216820e2780876f649fd040532814ca8a66\n3cf3a623a06edd187f0e46f307fc5f5df7c062e2\n7bb3ac4860ccc496470d3cf3df76821d39e9253f\n97cd8a8605f8ffd6c6ebbe99ea0e5a67d54de60f\ne4e7f215abfcb2d7c033072c22d81fc1222fc800\n9f9663d7741d190c856177d998f26ce90c5902b5\n3bac9cbae5e667aca960b06f271ae0d9ed32ceee\n82c7e4a6df379e3e83202de798f7adca0ddd85cf\n752653355256e00009754e1c3e3bec9a49ca81d2\n4fc9d5df3567eced89caab4a475b4745f1a112f1\nefe211c55a7a81944227c3254f1bf7e1d856839e\nd7096d54dc932db9fc152c4beb267fa376d58a15\nd5420e11a5ae35787073fc27ee588f99dd6443d9\ncd3b15a31d3c89bce5ebce836a4a1e39b5cded50\n3a75a507fa1c872d04435aa97af10ef79fbc314a\nb10755ec5a393094d2dbfb9ba9cf8690d661c112\n36716f2043bb21a013c125059f2b6316259472fd\n9547f95999733055334b4a1645ee1c01ba1e8945\n4e7eb50401a7385afdc9c66f38876dc79d4d8232\naad30942d18cff552c8386d9c45c925422155d32\n1c11d4fb46f15a0b3bc8b35b416bebf855d9e95a\necbaf848e88001c19bd8fa227156ccd4b3d140e8\n84d906e91aa4e0a7429463972fc5883a17315730\nd481babf0fdba8a26dafcf1b4a3fa49f9083cad8\n9137871406a8920247960b29dbd101233e7ba31c\n6b73ce10c125c904dc247742e2b604d947470b3f\n8ffd4e4b1c008324a1b07756dbe01ec300140ed0\n821eed2f32a3f50d4781cc4c9507c0c5e1a09a80\n234241e34ac5027337cf514419a63e3a3a33947e\na529cb126edfa589254b92223c71292192386817\n48a9806b823be7705537876f8ec6fd761eab15e8\naead35227b604f9fc79cee0adc4828fb541a0764\n116cc123e33ab45ba884e5c1e540b2d85082367c\nd4d7967d29398a1c4c3beddf7879a071a50c5bfb\n9ad1f96579a7b32732f02ec5aaae84f08d6eeda6\n6be42ccf4768ea05045c0b4d80d85a115469a9c6\n89a41776a88b470494476ac5b1892b042a038c3e\n7771d383e9f71fd7c99837e3217235403b7eca7b\n1fb4dff2188e29d18f18798a6ef0d84882fb109d\nd8807b29066b8e877ae43e423808627b4483a554\nccfb18b3fef48c216159dd6370850c19630e5594\na7f36d8e677d5b61da732a3c3072a916a9ed2150\n";

/// They stand behind a call without a contract, which keeps them out of the proof of the test.
fn names() -> &'static [u8] {
    NAMES
}

/// The names of as many artifacts as that, a newline behind each.
fn generated_names(alloc: Global, count: u64) -> Result<Text, Memory>
    requires some { 1 ≤ count }
    requires few { count ≤ 100_000 }
{
    let texts = artifacts(alloc, count, false)?;
    let mut names = Text::empty(alloc);
    for text in texts.items() {
        names.append(&Name::of(text.bytes()).text())?;
        names.append(b"\n")?;
    }
    Ok(names)
}

#[test]
fn generates_what_the_table_says(rt: HostRuntime) -> Result<(), Memory> {
    follows_table();
    is_told_by_table();
    names_earlier_ones();
    arrives_each_once();
    has_as_many();
    reverses();
    let found = generated_names(rt.alloc(), 45)?;
    assert_eq!(rt; found.bytes(), names());
    Ok(())
}
