/// One group. Member 0 reads and writes alone, and members 1 and 2 keep no whole pages; member 3 is added by the child
/// of the root.
pub const SMALL: &[u8] = b"{\"format\":1,\"lal\":10,\"groups\":[{\"configurations\":[\
{\"parent\":null,\"members\":[0,1,2],\"full\":[0],\"read\":0,\"write\":0,\"meets\":{\"rule\":\"clash\",\"left\":0,\"right\":0},\"step\":null},\
{\"parent\":0,\"members\":[0,1,2,3],\"full\":[0,3],\"read\":0,\"write\":0,\"meets\":{\"rule\":\"clash\",\"left\":0,\"right\":0},\"step\":{\"rule\":\"clash\",\"left\":0,\"right\":0}}]}]}";

/// One group of six copies, of which 3 read and 4 write. The child of the root adds member 6: its read quorums are
/// those of 0 to 5 or those of 0 to 4 and 6, its write quorums those of both.
pub const REPLACED: &[u8] = br#"{"format":1,"lal":10,"groups":[{"configurations":[
{"parent":null,"members":[0,1,2,3,4,5],"full":[0,1,2,3,4,5],"read":{"k":3,"of":"all"},"write":{"k":4,"of":"all"},
"meets":{"rule":"match","left":0,"right":0,"pairs":[[0,0],[1,1],[2,2],[3,3],[4,4],[5,5]],"then":[
{"rule":"clash","left":0,"right":0},{"rule":"clash","left":0,"right":0},{"rule":"clash","left":0,"right":0},
{"rule":"clash","left":0,"right":0},{"rule":"clash","left":0,"right":0},{"rule":"clash","left":0,"right":0}]},
"step":null},
{"parent":0,"members":[0,1,2,3,4,5,6],"full":[0,1,2,3,4,5,6],
"read":{"k":1,"of":[{"k":3,"of":[0,1,2,3,4,5]},{"k":3,"of":[0,1,2,3,4,6]}]},
"write":{"k":2,"of":[{"k":4,"of":[0,1,2,3,4,5]},{"k":4,"of":[0,1,2,3,4,6]}]},
"meets":{"rule":"open","side":"right","item":0,"then":{"rule":"pick","side":"left","item":0,"children":[0,1],"then":[
{"rule":"match","left":0,"right":0,"pairs":[[0,0],[1,1],[2,2],[3,3],[4,4],[5,5]],"then":[
{"rule":"clash","left":0,"right":1},{"rule":"clash","left":0,"right":1},{"rule":"clash","left":0,"right":1},
{"rule":"clash","left":0,"right":1},{"rule":"clash","left":0,"right":1},{"rule":"clash","left":0,"right":1}]},
{"rule":"match","left":0,"right":1,"pairs":[[0,0],[1,1],[2,2],[3,3],[4,4],[5,5]],"then":[
{"rule":"clash","left":0,"right":1},{"rule":"clash","left":0,"right":1},{"rule":"clash","left":0,"right":1},
{"rule":"clash","left":0,"right":1},{"rule":"clash","left":0,"right":1},{"rule":"clash","left":0,"right":1}]}]}},
"step":{"rule":"pick","side":"left","item":0,"children":[0,1],"then":[
{"rule":"match","left":0,"right":0,"pairs":[[0,0],[1,1],[2,2],[3,3],[4,4],[5,5]],"then":[
{"rule":"clash","left":0,"right":0},{"rule":"clash","left":0,"right":0},{"rule":"clash","left":0,"right":0},
{"rule":"clash","left":0,"right":0},{"rule":"clash","left":0,"right":0},{"rule":"clash","left":0,"right":0}]},
{"rule":"match","left":0,"right":0,"pairs":[[0,0],[1,1],[2,2],[3,3],[4,4],[5,5]],"then":[
{"rule":"clash","left":0,"right":0},{"rule":"clash","left":0,"right":0},{"rule":"clash","left":0,"right":0},
{"rule":"clash","left":0,"right":0},{"rule":"clash","left":0,"right":0},{"rule":"dead","side":"left","item":0}]}]}}
]}]}"#;
